use al_app::{Answer, Status, answer_alone};
use al_history::{SpecFault, SpecLimit};
use al_outside::{MemorySink, MemorySource, Room8};
use al_values::{CallList, NoMemory, Txt, Txt8};
use std::alloc::Global;
use std::test::Fail;

// The answer to `run` over a file, and what was written.
fn answer_to(alloc: Global, file: &str) -> Result<(Answer, MemorySink), NoMemory> {
    let mut words = Vec::new(alloc);
    words.push(Txt::new(alloc, "run")?)?;
    let bytes = Txt8::from_vec(file.as_bytes().to_vec(alloc)?);
    let mut source = MemorySource::new(bytes, 4_096, CallList::new(alloc));
    let mut sink = MemorySink::new(Room8::new(alloc, 1_048_576)?, 65_536, CallList::new(alloc));
    let answer = answer_alone(alloc, &words, &mut source, &mut sink);
    Ok((answer, sink))
}

// The status of `run` over a file.
fn status_of(alloc: Global, file: &str) -> Result<Status, NoMemory> {
    Ok(answer_to(alloc, file)?.0.status)
}

fn push_times(file: &mut String, piece: &str, count: usize) -> Result<(), NoMemory> {
    for _ in 0..count {
        file.push_str(piece)?;
    }
    Ok(())
}

// So many sessions with a step each, of which the first is run.
fn with_sessions(alloc: Global, count: usize) -> Result<String, NoMemory> {
    let mut file = String::new(alloc);
    for number in 0..count {
        write!(file, "session s step x{number} {{ BEGIN }}\n")?;
    }
    file.push_str("permutation x0\n")?;
    Ok(file)
}

#[test]
fn sessions(rt: HostRuntime) -> Result<(), Fail> {
    let alloc = rt.alloc();
    let most = with_sessions(alloc, 62)?;
    assert_eq!(rt; status_of(alloc, &most)?, Status::Done);
    let more = with_sessions(alloc, 63)?;
    let Status::SpecFault(fault) = status_of(alloc, &more)? else {
        return Err(Fail::from("a fault"));
    };
    // The last name: behind ten lines of 28 bytes, 52 of 29, and the 8 of its word.
    let at = 1_796;
    let what = SpecLimit::Sessions;
    assert_eq!(rt; fault, SpecFault::Limit { at, what });
    Ok(())
}

// A block of so many bytes.
fn with_block(alloc: Global, bytes: usize) -> Result<String, NoMemory> {
    let mut file = String::new(alloc);
    file.push_str("session s step x {")?;
    push_times(&mut file, ";", bytes)?;
    file.push_str("} permutation x")?;
    Ok(file)
}

#[test]
fn blocks(rt: HostRuntime) -> Result<(), Fail> {
    let alloc = rt.alloc();
    assert_eq!(rt;
        status_of(alloc, &with_block(alloc, 65_536)?)?,
        Status::Done
    );
    let (answer, sink) = answer_to(alloc, &with_block(alloc, 65_537)?)?;
    let what = SpecLimit::Block;
    assert_eq!(rt;
        answer.status,
        Status::SpecFault(SpecFault::Limit { at: 17, what })
    );
    assert_eq!(rt;
        sink.held(),
        b"spec fault at byte 17: limit of block\n".as_slice()
    );
    Ok(())
}

// One step, and so many permutations of it, each so long.
fn with_permutations(alloc: Global, count: usize, steps: usize) -> Result<String, NoMemory> {
    let mut file = String::new(alloc);
    file.push_str("session s step x { BEGIN }\n")?;
    for _ in 0..count {
        file.push_str("permutation")?;
        push_times(&mut file, " x", steps)?;
        file.push_str("\n")?;
    }
    Ok(file)
}

#[test]
fn permutations(rt: HostRuntime) -> Result<(), Fail> {
    let alloc = rt.alloc();
    let (answer, _) = answer_to(alloc, &with_permutations(alloc, 1_000, 1)?)?;
    assert_eq!(rt; answer.status, Status::Done);
    assert_eq!(rt; answer.runs.len(), 1_000);
    let at = 27 + 1_000 * 14;
    let what = SpecLimit::Permutations;
    let fault = SpecFault::Limit { at, what };
    let more = with_permutations(alloc, 1_001, 1)?;
    assert_eq!(rt; status_of(alloc, &more)?, Status::SpecFault(fault));
    Ok(())
}

#[test]
fn steps(rt: HostRuntime) -> Result<(), Fail> {
    let alloc = rt.alloc();
    let most = with_permutations(alloc, 1, 1_000)?;
    assert_eq!(rt; status_of(alloc, &most)?, Status::Done);
    let at = 27 + 12 + 2 * 1_000;
    let what = SpecLimit::Steps;
    let fault = SpecFault::Limit { at, what };
    let more = with_permutations(alloc, 1, 1_001)?;
    assert_eq!(rt; status_of(alloc, &more)?, Status::SpecFault(fault));
    Ok(())
}

// A setup block that makes so many tables, half of them in a transaction that is aborted, and a step that makes one more.
fn with_tables(alloc: Global, half: usize) -> Result<String, NoMemory> {
    let mut file = String::new(alloc);
    file.push_str("setup { BEGIN;")?;
    for number in 0..half {
        write!(file, " CREATE TABLE a{number} (a integer);")?;
    }
    file.push_str(" ROLLBACK }\nsetup {")?;
    for number in 0..half {
        write!(file, " CREATE TABLE b{number} (a integer);")?;
    }
    file.push_str(" }\nsession s step x { CREATE TABLE c (a integer) }\npermutation x\n")?;
    Ok(file)
}

fn ends_with(sink: &MemorySink, text: &str) -> bool {
    sink.held().ends_with(text.as_bytes())
}

#[test]
fn tables(rt: HostRuntime) -> Result<(), Fail> {
    let alloc = rt.alloc();
    let (answer, sink) = answer_to(alloc, &with_tables(alloc, 249)?)?;
    assert_eq!(rt; answer.status, Status::Done);
    assert!(rt; ends_with(&sink, "step x: CREATE TABLE c (a integer)\nCREATE TABLE\n"));
    let (answer, sink) = answer_to(alloc, &with_tables(alloc, 250)?)?;
    assert_eq!(rt; answer.status, Status::Done);
    let refused = "step x: CREATE TABLE c (a integer)\nERROR: 54000: limit of tables passed\n";
    assert!(rt; ends_with(&sink, refused));
    Ok(())
}

// A table of so many columns.
fn with_columns(alloc: Global, count: usize) -> Result<String, NoMemory> {
    let mut file = String::new(alloc);
    file.push_str("session s step x { CREATE TABLE t (c integer")?;
    for number in 1..count {
        write!(file, ", c{number} integer")?;
    }
    file.push_str(") } step y { ALTER TABLE t ADD COLUMN d integer } permutation x y\n")?;
    Ok(file)
}

#[test]
fn columns(rt: HostRuntime) -> Result<(), Fail> {
    let alloc = rt.alloc();
    let refused = "ERROR: 54000: limit of columns passed\n";
    let (_, sink) = answer_to(alloc, &with_columns(alloc, 199)?)?;
    assert!(rt; ends_with(&sink, "ALTER TABLE\n"));
    let (_, sink) = answer_to(alloc, &with_columns(alloc, 200)?)?;
    assert!(rt; ends_with(&sink, refused));
    let (_, sink) = answer_to(alloc, &with_columns(alloc, 201)?)?;
    assert!(rt;
        ends_with(
            &sink,
            "ERROR: 54000: limit of columns passed\nstep y: ALTER TABLE t ADD COLUMN d integer\nERROR: 42P01: table \"t\" does not exist\n"
        )
    );
    Ok(())
}
