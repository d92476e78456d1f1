// The report on readings, where a host refuses them for their length.
use readings_report::report;
use std::test::Fail;

#[test]
fn a_report_is_refused(rt: HostRuntime) -> Result<(), Fail> {
    let full = vec![in rt.alloc(); b' '; 16_384]?;
    let text = report(rt.alloc(), full.as_slice())?;
    let none = "numbers 0\ntruths 0\nunreadable 0\nprobe\nnumbers 0\ntruths 0\nunreadable 0\n";
    assert_eq!(rt; text.as_str(), none);
    let long = vec![in rt.alloc(); b' '; 16_385]?;
    let text = report(rt.alloc(), long.as_slice())?;
    assert_eq!(rt; text.as_str(), "refused 24 0\n");
    Ok(())
}

#[test]
fn readings_are_too_many_for_a_probe(rt: HostRuntime) -> Result<(), Fail> {
    let mut source = Vec::new(rt.alloc());
    for at in 0..8_193u32 {
        source.push(if at % 2 == 0 { b'1' } else { b' ' })?;
    }
    let text = report(rt.alloc(), source.as_slice())?;
    let end = "numbers 4097\ntruths 0\nunreadable 0\nprobe\nrefused 24 0\n";
    assert!(rt; text.as_str().ends_with(end));
    Ok(())
}
