// The probe host.
use hosts::Host;
use hosts::copying::{Copied, copy_readings};
use hosts::exchange::{Cause, Unreadable, Value};
use hosts::fault::Fault;
use probe_host::ProbeHost;
use refusals::Refusal;

/// Why no probe host is made of so much, and whether all of the memory is as it was then.
fn made(numbers: usize, cells: usize, room: usize) -> (Option<Refusal<Fault>>, bool) {
    let input = [1u32; 4_097];
    let mut output = [7u32; 4_097];
    let (lent, _) = output.split_at_mut(cells.min(4_097));
    let refusal = ProbeHost::over(&input[..numbers.min(4_097)], lent, room).err();
    (refusal, output.iter().all(|cell| *cell == 7))
}

#[test]
fn a_probe_host_is_made_or_refused(rt: HostRuntime) {
    let too_long = Some(Fault::InputTooLong);
    let too_short = Some(Fault::MemoryShort);
    for (numbers, cells, room, fault) in [
        (4_096, 4_096, 4_096, None),
        (4_096, 4_097, 4_096, None),
        (4_097, 4_096, 4_096, too_long),
        (4_097, 4_097, 4_097, too_long),
        (4_096, 4_097, 4_097, too_short),
        (4_096, 4_095, 4_096, too_short),
        (0, 1, 1, None),
        (0, 0, 1, too_short),
        (0, 0, 0, None),
    ] {
        let refusal = fault.map(|fault| Refusal { fault, place: 0 });
        assert_eq!(rt;
            made(numbers, cells, room),
            (refusal, true),
            "at {numbers} {cells} {room}"
        );
    }
}

#[test]
fn a_probe_host_reads(rt: HostRuntime) {
    let mut host = ProbeHost::over(&[0, 4_294_967_294, 4_294_967_295, 5], &mut [], 0).unwrap();
    assert_eq!(rt; host.front(), Some(Ok(Value::Number(0))));
    host.take();
    assert_eq!(rt; host.front(), Some(Ok(Value::Number(4_294_967_294))));
    host.take();
    assert_eq!(rt; host.front(), Some(Err(Unreadable)));
    host.take();
    assert_eq!(rt; host.front(), Some(Ok(Value::Number(5))));
    host.take();
    assert_eq!(rt; host.front(), None);
    host.take();
    assert_eq!(rt; host.front(), None);
}

#[test]
fn a_probe_host_writes(rt: HostRuntime) {
    let mut output = [7u32; 4];
    let mut host = ProbeHost::over(&[], &mut output, 3).unwrap();
    assert_eq!(rt; host.put(Value::Truth(false)), Ok(()));
    assert_eq!(rt; host.put(Value::Truth(true)), Ok(()));
    assert_eq!(rt; host.put(Value::Number(2_147_483_648)), Err(Cause::Large));
    assert_eq!(rt; host.written(), &[0u32, 1][..]);
    assert_eq!(rt; host.put(Value::Number(2_147_483_647)), Ok(()));
    assert_eq!(rt; host.put(Value::Number(0)), Err(Cause::Full));
    assert_eq!(rt; host.put(Value::Number(2_147_483_648)), Err(Cause::Full));
    assert_eq!(rt; host.written(), &[0u32, 1, 2_147_483_649][..]);
    assert_eq!(rt; output, [0, 1, 2_147_483_649, 7]);
}

/// What is copied of some numbers into so much room, and whether they are the numbers written, each by two more.
fn copied(input: &[u32], room: usize) -> Option<(Copied, bool)> {
    let mut output = [7u32; 3];
    let mut host = ProbeHost::over(input, &mut output, room).ok()?;
    let copied = copy_readings(&mut host, 3);
    let same = host
        .written()
        .iter()
        .zip(input)
        .all(|(written, read)| written.checked_sub(2) == Some(*read));
    Some((copied, same && host.written().len() == copied.count))
}

#[test]
fn readings_are_copied(rt: HostRuntime) {
    for (input, room, count, stop) in [
        ([3u32, 4, 5], 3, 3, None),
        ([3, 4, 5], 1, 1, Some(Cause::Full)),
        ([3, 4, 5], 0, 0, Some(Cause::Full)),
        ([3, 2_147_483_647, 2_147_483_648], 3, 2, Some(Cause::Large)),
        ([3, 4_294_967_295, 5], 3, 1, Some(Cause::Unreadable)),
    ] {
        assert_eq!(rt; copied(&input, room), Some((Copied { count, stop }, true)));
    }
    assert_eq!(rt;
        copied(&[3, 4], 3),
        Some((
            Copied {
                count: 2,
                stop: Some(Cause::Empty)
            },
            true
        ))
    );
}

#[test]
fn a_probe_host_of_the_greatest_room_is_filled(rt: HostRuntime) {
    let input = [4u32; 4_096];
    let mut output = [7u32; 4_097];
    let mut host = ProbeHost::over(&input, &mut output, 4_096).unwrap();
    assert_eq!(rt;
        copy_readings(&mut host, 4_097),
        Copied {
            count: 4_096,
            stop: Some(Cause::Empty)
        }
    );
    assert_eq!(rt; host.put(Value::Truth(true)), Err(Cause::Full));
    assert!(rt; host.written() == [6u32; 4_096].as_slice());
    assert_eq!(rt; output[4_096], 7);
}
