//! Names of sessions and steps.
ghost use Rattle.std.specs.Prelude.{◌≡◌, ◌++◌, flat_map, OnOk, string_bytes};
ghost use Rattle.al_app.specs.Report.{doubled, name_text};

use al_spec::is_plain;
use al_values::{Name, NoMemory};

// A text with its quotes doubled.
fn push_doubled(text: &mut String, name: &str) -> Result<(), NoMemory>
    ensures ok { OnOk result
        (string_bytes text.new ≡ string_bytes text.old ++ flat_map doubled name.now) }
{
    let bytes = name.as_bytes();
    let mut from: usize = 0;
    for place in 0..bytes.len() {
        if bytes[place] == b'"' {
            text.push_str(&name[from..place + 1])?;
            text.push_str("\"")?;
            from = place + 1;
        }
    }
    text.push_str(&name[from..bytes.len()])?;
    Ok(())
}

/// A name, in double quotes where it isn't plain.
#[tactic(auto, unfolding(crate::specs::Report::name_text))]
pub fn push_name(text: &mut String, name: &Name) -> Result<(), NoMemory>
    ensures ok { OnOk result
        (string_bytes text.new ≡ string_bytes text.old ++ name_text name.now) }
{
    if is_plain(name.as_str()) {
        text.push_str(name.as_str())?;
    } else {
        text.push_str("\"")?;
        push_doubled(text, name.as_str())?;
        text.push_str("\"")?;
    }
    Ok(())
}
