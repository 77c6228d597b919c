//! What statements answered.
ghost use Rattle.std.specs.Prelude.{◌≡◌, ◌++◌, codes, flat_map, OnOk, string_bytes};
ghost use Rattle.std.specs.List.{join_by};
ghost use Rattle.al_values.specs.Printed.{printed};
ghost use Rattle.al_app.specs.Report.{refusal_text, reply_text, rows_text, row_text, row_count_text, tag_text};

use crate::report::causes::push_cause;
use al_history::{Cause, Entry, Reply, Tag};
use al_values::{Name, NoMemory, Row, Value};

fn push_tag(text: &mut String, tag: Tag, count: u32) -> Result<(), NoMemory>
    ensures ok { OnOk result (string_bytes text.new ≡ string_bytes text.old ++ tag_text tag count) }
{
    match tag {
        Tag::Begin => text.push_str("BEGIN")?,
        Tag::StartTransaction => text.push_str("START TRANSACTION")?,
        Tag::Commit => text.push_str("COMMIT")?,
        Tag::Rollback => text.push_str("ROLLBACK")?,
        Tag::Set => text.push_str("SET")?,
        Tag::LockTable => text.push_str("LOCK TABLE")?,
        Tag::CreateTable => text.push_str("CREATE TABLE")?,
        Tag::DropTable => text.push_str("DROP TABLE")?,
        Tag::AlterTable => text.push_str("ALTER TABLE")?,
        Tag::Insert => write!(text, "INSERT 0 {count}")?,
        Tag::Update => write!(text, "UPDATE {count}")?,
        Tag::Delete => write!(text, "DELETE {count}")?,
    }
    Ok(())
}

fn push_row_count(text: &mut String, count: usize) -> Result<(), NoMemory>
    ensures ok { OnOk result
        (string_bytes text.new ≡ string_bytes text.old ++ row_count_text count) }
{
    if count == 1 {
        text.push_str("(1 row)\n")?;
    } else {
        write!(text, "({count} rows)\n")?;
    }
    Ok(())
}

fn push_names(text: &mut String, names: &[Name]) -> Result<(), NoMemory>
    ensures ok { OnOk result
        (string_bytes text.new ≡ string_bytes text.old ++ join_by (λ name. name) (codes "|") names.now) }
{
    let Some((first, others)) = names.split_first() else {
        return Ok(());
    };
    text.push_str(first.as_str())?;
    for name in others {
        text.push_str("|")?;
        text.push_str(name.as_str())?;
    }
    Ok(())
}

fn push_row(text: &mut String, row: &[Value]) -> Result<(), NoMemory>
    ensures ok { OnOk result
        (string_bytes text.new ≡ string_bytes text.old ++ join_by printed (codes "|") row.now) }
{
    let Some((first, others)) = row.split_first() else {
        return Ok(());
    };
    write!(text, "{first}")?;
    for value in others {
        write!(text, "|{value}")?;
    }
    Ok(())
}

fn push_all_rows(text: &mut String, rows: &[Row]) -> Result<(), NoMemory>
    ensures ok { OnOk result
        (string_bytes text.new ≡ string_bytes text.old ++ flat_map row_text rows.now) }
{
    for row in rows {
        push_row(text, row.as_slice())?;
        text.push_str("\n")?;
    }
    Ok(())
}

fn push_rows(text: &mut String, entry: &Entry) -> Result<(), NoMemory>
    ensures ok { OnOk result
        (string_bytes text.new ≡ string_bytes text.old ++ rows_text entry.now) }
{
    if let Entry::Read { names, rows, .. } = entry {
        push_names(text, names.as_slice())?;
        text.push_str("\n")?;
        push_all_rows(text, rows.as_slice())?;
        push_row_count(text, rows.len())?;
    }
    Ok(())
}

/// What a statement answered. The rows of a SELECT stand in the journal.
pub fn push_reply(text: &mut String, journal: &[Entry], reply: Reply) -> Result<(), NoMemory>
    ensures ok { OnOk result
        (string_bytes text.new ≡ string_bytes text.old ++ reply_text journal.now reply) }
{
    match reply {
        Reply::Tag { tag, count } => {
            push_tag(text, tag, count)?;
            text.push_str("\n")?;
        }
        Reply::Rows { entry } => {
            if let Some(read) = journal.get(entry as usize) {
                push_rows(text, read)?;
            }
        }
    }
    Ok(())
}

/// A refusal, with its cause.
pub fn push_refusal(text: &mut String, cause: &Cause) -> Result<(), NoMemory>
    ensures ok { OnOk result
        (string_bytes text.new ≡ string_bytes text.old ++ refusal_text cause.now) }
{
    text.push_str("ERROR: ")?;
    push_cause(text, cause)?;
    text.push_str("\n")?;
    Ok(())
}
