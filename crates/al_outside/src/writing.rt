ghost use Rattle.std.specs.Prelude.{OnOk, OnErr};
ghost use Rattle.al_outside.specs.Faults.{HasCause};
ghost use Rattle.al_outside.specs.Holding.{Grows, GrowsByFront};

use crate::{Failed, Sink};

/// Writes the whole text to a sink, by as many calls as it takes. Where the sink fails, it has taken a front of it.
pub fn write_all<S: Sink>(sink: &mut S, text: &[u8]) -> Result<(), Failed>
    ensures ok { OnOk result (Grows (S.held sink.old) (S.held sink.new) text.now) }
    ensures err { OnErr result (GrowsByFront (S.held sink.old) (S.held sink.new) text.now) }
    ensures cause { HasCause (S.faults sink.old) (S.faults sink.new) result }
{
    let mut at = 0;
    'writes: while at < text.len() {
        at += sink.write(&text[at..])?;
    }
    Ok(())
}
