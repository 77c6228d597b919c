//! Texts from standard input, read over and over.

use al_spec::{Spec, read_spec};
use al_sql::read_script;
use al_tokens::tokens;
use al_values::{Cant, NoMemory, Txt};
use std::alloc::Global;

/// Reads a spec file as often, and gives the count of its sessions, blocks and permutations, all together; 0 for a fault.
pub fn specs(alloc: Global, bytes: &[u8], times: u32) -> Result<u64, NoMemory> {
    let mut parts: u64 = 0;
    for _ in 0..times {
        parts = parts.wrapping_add(match read_spec(alloc, bytes) {
            Ok(spec) => parts_of(&spec),
            Err(Cant::Why(_)) => 0,
            Err(Cant::NoMemory) => return Err(NoMemory),
        });
    }
    Ok(parts)
}

fn parts_of(spec: &Spec) -> u64 {
    let sessions = spec.sessions.len() as u64;
    let blocks = spec.blocks.len() as u64;
    let permutations = spec.permutations.len() as u64;
    sessions.wrapping_add(blocks).wrapping_add(permutations)
}

fn text_of(alloc: Global, bytes: Vec<u8>) -> Txt {
    match String::from_utf8(bytes) {
        Ok(text) => Txt::from_string(text),
        Err(_) => Txt::from_string(String::new(alloc)),
    }
}

/// Reads a text of SQL as often, and gives the count of its statements, all together; 0 for a fault.
pub fn scripts(alloc: Global, bytes: Vec<u8>, times: u32) -> Result<u64, NoMemory> {
    let text = text_of(alloc, bytes);
    let mut count: u64 = 0;
    for _ in 0..times {
        count = count.wrapping_add(match read_script(alloc, &text) {
            Ok(statements) => statements.len() as u64,
            Err(Cant::Why(_)) => 0,
            Err(Cant::NoMemory) => return Err(NoMemory),
        });
    }
    Ok(count)
}

/// Reads a text of SQL as often, and gives the count of its tokens, all together; 0 for a fault.
pub fn texts(alloc: Global, bytes: Vec<u8>, times: u32) -> Result<u64, NoMemory> {
    let text = text_of(alloc, bytes);
    let mut count: u64 = 0;
    for _ in 0..times {
        count = count.wrapping_add(match tokens(alloc, &text) {
            Ok(tokens) => tokens.len() as u64,
            Err(Cant::Why(_)) => 0,
            Err(Cant::NoMemory) => return Err(NoMemory),
        });
    }
    Ok(count)
}
