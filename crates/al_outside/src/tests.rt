use crate::{
    Failed, Gate, MemorySink, MemorySource, NotRead, OpenGate, Room8, Sink, Source, StdSink,
    StdSource, read_all, write_all,
};
use al_values::{CallList, Txt8};
use std::alloc::{AllocError, Global};
use std::test::Fail;

fn bytes(alloc: Global, text: &[u8]) -> Result<Txt8, AllocError> {
    Ok(Txt8::from_vec(text.to_vec(alloc)?))
}

fn calls(alloc: Global, numbers: &[u32]) -> Result<CallList, AllocError> {
    Ok(CallList::from_vec(numbers.to_vec(alloc)?))
}

#[test]
fn adapters_of_std(rt: HostRuntime) -> Result<(), Fail> {
    let mut source = StdSource::new(b"begin".as_slice());
    let text = read_all(rt.alloc(), 5, &mut source)?;
    assert_eq!(rt; text.as_slice(), b"begin".as_slice());
    assert_eq!(rt; source.faults(), 0);
    let mut long = StdSource::new(b"begin".as_slice());
    assert_eq!(rt;
        read_all(rt.alloc(), 4, &mut long).err(),
        Some(NotRead::TooLong)
    );

    let mut sink = StdSink::new(Vec::new(rt.alloc()));
    write_all(&mut sink, b"com")?;
    write_all(&mut sink, b"mit")?;
    assert_eq!(rt; sink.faults(), 0);
    assert_eq!(rt; sink.into_writer().as_slice(), b"commit".as_slice());

    // A writer that is full takes no byte.
    let mut four = [0; 4];
    let mut short = StdSink::new(four.as_mut_slice());
    assert_eq!(rt; write_all(&mut short, b"commit"), Err(Failed));
    assert_eq!(rt; short.faults(), 1);
    OpenGate.pass(0, 0);
    Ok(())
}

#[test]
fn source_in_memory(rt: HostRuntime) -> Result<(), Fail> {
    let alloc = rt.alloc();
    let text = bytes(alloc, b"0123456789abcdefghijklmno")?;
    let mut source = MemorySource::new(text, 10, calls(alloc, &[1])?);
    assert_eq!(rt;
        read_all(alloc, 100, &mut source).err(),
        Some(NotRead::Fault)
    );
    assert_eq!(rt; source.faults(), 1);
    let rest = read_all(alloc, 100, &mut source)?;
    assert_eq!(rt; rest.as_slice(), b"abcdefghijklmno".as_slice());
    assert_eq!(rt; source.read(&mut [0]), Ok(0));
    assert_eq!(rt; source.faults(), 1);
    Ok(())
}

#[test]
fn sink_in_memory(rt: HostRuntime) -> Result<(), Fail> {
    let alloc = rt.alloc();
    let mut sink = MemorySink::new(Room8::new(alloc, 100)?, 64, calls(alloc, &[1])?);
    assert_eq!(rt; write_all(&mut sink, &[b'x'; 70]), Err(Failed));
    assert_eq!(rt; sink.held(), [b'x'; 64].as_slice());
    assert_eq!(rt; sink.faults(), 1);
    write_all(&mut sink, b"yz")?;
    assert_eq!(rt; sink.held().len(), 66);

    let mut small = MemorySink::new(Room8::new(alloc, 4)?, 64, calls(alloc, &[])?);
    assert_eq!(rt; write_all(&mut small, b"commit"), Err(Failed));
    assert_eq!(rt; small.held(), b"comm".as_slice());
    assert_eq!(rt; small.write(b""), Ok(0));
    assert_eq!(rt; small.write(b"i"), Err(Failed));
    assert_eq!(rt; small.faults(), 2);
    Ok(())
}
