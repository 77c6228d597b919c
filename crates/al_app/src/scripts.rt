//! The blocks of a spec file as scripts.
ghost use Rattle.std.specs.Prelude.{IfOk};
ghost use Rattle.al_app.specs.Scripts.{IsReadAs, IsScriptOf, EachWith, AreScripts};

use crate::built::built_script;
use al_history::{Block, Script, ScriptBlock, ScriptList, Scripts, Spec, SqlFault};
use al_sql::read_script;
use al_values::{Cant, ListOf, NoMemory, Txt, count_of};
use std::alloc::Global;

/// What the text of a block is read as: its statements, or why it has none. A script with a statement that isn't built is
/// refused at its first byte.
fn read_block(alloc: Global, text: &Txt) -> Result<Result<Script, SqlFault>, NoMemory>
    ensures { IfOk result (λ read. IsReadAs text.now read) }
{
    match read_script(alloc, text) {
        Ok(trees) => built_script(alloc, trees.as_slice()),
        Err(Cant::Why(fault)) => Ok(Err(fault)),
        Err(Cant::NoMemory) => Err(NoMemory),
    }
}

fn script_of(alloc: Global, block: &Block) -> Result<ScriptBlock, NoMemory>
    ensures { IfOk result (λ script. IsScriptOf block.now script) }
{
    let script = read_block(alloc, &block.text)?;
    Ok(ScriptBlock {
        session: block.session,
        script,
    })
}

fn all_scripts(alloc: Global, blocks: &[Block]) -> Result<ScriptList, NoMemory>
    ensures { IfOk result (λ scripts. EachWith IsScriptOf blocks.now scripts) }
{
    let mut scripts = ListOf::new(alloc);
    for block in blocks {
        scripts.push(script_of(alloc, block)?)?;
    }
    Ok(scripts)
}

/// Reads each block of a spec file once.
pub fn read_scripts(alloc: Global, spec: &Spec) -> Result<Scripts, NoMemory>
    ensures { IfOk result (λ scripts. AreScripts spec.now scripts) }
{
    let Some(sessions) = count_of(spec.sessions.len())?.checked_add(1) else {
        return Err(NoMemory);
    };
    Ok(Scripts {
        sessions,
        blocks: all_scripts(alloc, spec.blocks.as_slice())?,
    })
}
