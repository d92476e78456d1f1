// The host over text.
use hosts::Host;
use hosts::copying::{Copied, copy_readings};
use hosts::exchange::{Cause, Item, Unreadable, Value};
use hosts::fault::Fault;
use refusals::Refusal;
use text_host::TextHost;

/// Why no text host is made of so much, and whether all of the memory is as it was then.
fn made(bytes: usize, cells: usize, room: usize) -> (Option<Refusal<Fault>>, bool) {
    let input = [b'1'; 16_385];
    let mut output = [7u8; 45_067];
    let (lent, _) = output.split_at_mut(cells.min(45_067));
    let refusal = TextHost::over(&input[..bytes.min(16_385)], lent, room).err();
    (refusal, output.iter().all(|byte| *byte == 7))
}

#[test]
fn a_text_host_is_made_or_refused(rt: HostRuntime) {
    let too_long = Some(Fault::InputTooLong);
    let too_short = Some(Fault::MemoryShort);
    for (bytes, cells, room, fault) in [
        (16_384, 45_056, 4_096, None),
        (16_385, 45_056, 4_096, too_long),
        (16_385, 0, 4_097, too_long),
        (16_384, 45_067, 4_097, too_short),
        (16_384, 45_055, 4_096, too_short),
        (0, 11, 1, None),
        (0, 10, 1, too_short),
        (0, 0, 0, None),
    ] {
        let refusal = fault.map(|fault| Refusal { fault, place: 0 });
        assert_eq!(rt;
            made(bytes, cells, room),
            (refusal, true),
            "at {bytes} {cells} {room}"
        );
    }
}

/// The first item of a text, looked at twice, and the second.
fn read(text: &str) -> Option<(Option<Item>, Option<Item>)> {
    let mut host = TextHost::over(text.as_bytes(), &mut [], 0).ok()?;
    let _ = host.front();
    let first = host.front();
    host.take();
    Some((first, host.front()))
}

#[test]
fn a_text_host_reads(rt: HostRuntime) {
    let unreadable = Some(Err(Unreadable));
    let five = Some(Ok(Value::Number(5)));
    let yes = Some(Ok(Value::Truth(true)));
    for (text, first, second) in [
        ("", None, None),
        (" \n ", None, None),
        ("\n\n 5", five, None),
        ("5\n5", five, five),
        ("4294967294", Some(Ok(Value::Number(4_294_967_294))), None),
        ("4294967295 5", unreadable, five),
        ("9999999999", unreadable, None),
        ("0000000005", five, None),
        ("00000000005 5", unreadable, five),
        ("true false", yes, Some(Ok(Value::Truth(false)))),
        ("true1 1true", unreadable, unreadable),
        ("True truefalse", unreadable, unreadable),
        ("+5 -5", unreadable, unreadable),
        ("5\t5 5\r\n5", unreadable, unreadable),
    ] {
        assert_eq!(rt; read(text), Some((first, second)), "at {text}");
    }
}

#[test]
fn a_text_host_writes(rt: HostRuntime) {
    let mut output = [7u8; 34];
    let mut host = TextHost::over(&[], &mut output, 3).unwrap();
    assert_eq!(rt; host.put(Value::Truth(true)), Ok(()));
    assert_eq!(rt; host.put(Value::Number(2_147_483_648)), Err(Cause::Large));
    assert_eq!(rt; host.written(), "true\n".as_bytes());
    assert_eq!(rt; host.put(Value::Number(2_147_483_647)), Ok(()));
    assert_eq!(rt; host.put(Value::Truth(false)), Ok(()));
    assert_eq!(rt; host.put(Value::Number(0)), Err(Cause::Full));
    assert_eq!(rt; host.put(Value::Number(2_147_483_648)), Err(Cause::Full));
    let text = "true\n2147483647\nfalse\n".as_bytes();
    assert_eq!(rt; host.written(), text);
    assert_eq!(rt; &output[..22], text);
    assert!(rt; output[22..].iter().all(|byte| *byte == 7));
}

/// What is copied of a text into so much room, and whether this text comes of it.
fn copied(text: &str, room: usize, written: &str) -> Option<(Copied, bool)> {
    let mut output = [7u8; 33];
    let mut host = TextHost::over(text.as_bytes(), &mut output, room).ok()?;
    let copied = copy_readings(&mut host, 3);
    Some((copied, host.written() == written.as_bytes()))
}

#[test]
fn text_is_copied(rt: HostRuntime) {
    for (text, room, written, count, stop) in [
        ("3 true\n\n007 8", 3, "3\ntrue\n7\n", 3, None),
        ("3 false", 3, "3\nfalse\n", 2, Some(Cause::Empty)),
        ("3 true1 4", 3, "3\n", 1, Some(Cause::Unreadable)),
        ("3 4", 1, "3\n", 1, Some(Cause::Full)),
        (
            "2147483647 2147483647 2147483647",
            3,
            "2147483647\n2147483647\n2147483647\n",
            3,
            None,
        ),
        ("2147483648", 0, "", 0, Some(Cause::Full)),
        (
            "2147483647 2147483648",
            3,
            "2147483647\n",
            1,
            Some(Cause::Large),
        ),
    ] {
        assert_eq!(rt;
            copied(text, room, written),
            Some((Copied { count, stop }, true)),
            "at {text}"
        );
    }
}
