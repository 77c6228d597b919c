//! Why statements were refused.
ghost use Rattle.std.specs.Prelude.{◌≡◌, ◌++◌, codes, OnOk, string_bytes};
ghost use Rattle.al_app.specs.Causes.{syntax_text, left_out_text, count_text, kind_text, null_text, check_text, key_text, foreign_text, locked_text, limit_name, limit_text, cast_text, fault_text, name_text, shape_text, row_text, cause_text};

use al_expr::EvalFault;
use al_history::{Cause, RunLimit};
use al_values::{CastFault, Name, NoMemory};

fn push_syntax(text: &mut String, at: u32) -> Result<(), NoMemory>
    ensures ok { OnOk result (string_bytes text.new ≡ string_bytes text.old ++ syntax_text at) }
{
    write!(text, "42601: syntax error at byte {at}")?;
    Ok(())
}

fn push_left_out(text: &mut String, at: u32) -> Result<(), NoMemory>
    ensures ok { OnOk result (string_bytes text.new ≡ string_bytes text.old ++ left_out_text at) }
{
    write!(text, "0A000: not supported at byte {at}")?;
    Ok(())
}

fn push_count(text: &mut String, want: u32, got: u32) -> Result<(), NoMemory>
    ensures ok { OnOk result (string_bytes text.new ≡ string_bytes text.old ++ count_text want got) }
{
    write!(text, "42601: INSERT has {got} values for {want} columns")?;
    Ok(())
}

fn push_kind(text: &mut String, place: u32) -> Result<(), NoMemory>
    ensures ok { OnOk result (string_bytes text.new ≡ string_bytes text.old ++ kind_text place) }
{
    write!(text, "42804: wrong type at byte {place}")?;
    Ok(())
}

fn push_null(text: &mut String, table: &Name, column: &Name) -> Result<(), NoMemory>
    ensures ok { OnOk result (string_bytes text.new ≡ string_bytes text.old ++ null_text table.now column.now) }
{
    write!(
        text,
        "23502: null in column \"{column}\" of table \"{table}\""
    )?;
    Ok(())
}

fn push_check(text: &mut String, table: &Name, name: &Name) -> Result<(), NoMemory>
    ensures ok { OnOk result (string_bytes text.new ≡ string_bytes text.old ++ check_text table.now name.now) }
{
    write!(
        text,
        "23514: row of table \"{table}\" breaks check \"{name}\""
    )?;
    Ok(())
}

fn push_key(text: &mut String, table: &Name, name: &Name) -> Result<(), NoMemory>
    ensures ok { OnOk result (string_bytes text.new ≡ string_bytes text.old ++ key_text table.now name.now) }
{
    write!(
        text,
        "23505: two rows of table \"{table}\" under key \"{name}\""
    )?;
    Ok(())
}

fn push_foreign(text: &mut String, table: &Name, name: &Name) -> Result<(), NoMemory>
    ensures ok { OnOk result (string_bytes text.new ≡ string_bytes text.old ++ foreign_text table.now name.now) }
{
    write!(
        text,
        "23503: table \"{table}\" breaks foreign key \"{name}\""
    )?;
    Ok(())
}

fn push_locked(text: &mut String, table: &Name) -> Result<(), NoMemory>
    ensures ok { OnOk result (string_bytes text.new ≡ string_bytes text.old ++ locked_text table.now) }
{
    write!(text, "55P03: lock not available on table \"{table}\"")?;
    Ok(())
}

fn limit_name(what: RunLimit) -> &'static str
    ensures { result.now ≡ limit_name what }
{
    match what {
        RunLimit::Tables => "tables",
        RunLimit::Columns => "columns",
        RunLimit::Constraints => "constraints",
        RunLimit::Parents => "parents",
        RunLimit::Text => "text",
        RunLimit::Journal => "journal",
    }
}

fn push_limit(text: &mut String, what: RunLimit) -> Result<(), NoMemory>
    ensures ok { OnOk result (string_bytes text.new ≡ string_bytes text.old ++ limit_text what) }
{
    write!(text, "54000: limit of {} passed", limit_name(what))?;
    Ok(())
}

fn cast_words(fault: CastFault) -> &'static str
    ensures { result.now ≡ cast_text fault }
{
    match fault {
        CastFault::OutOfRange => "22003: number out of range",
        CastFault::BadText => "22P02: bad text",
        CastFault::BadDate => "22007: bad date",
        CastFault::TooLong => "22001: text too long",
        CastFault::NoCast => "42804: wrong type",
    }
}

fn fault_words(fault: EvalFault) -> &'static str
    ensures { result.now ≡ fault_text fault }
{
    match fault {
        EvalFault::DivZero => "22012: division by zero",
        EvalFault::Range => "22003: number out of range",
        EvalFault::Cast(fault) => cast_words(fault),
        EvalFault::TooLong { .. } => "54000: limit of text passed",
    }
}

fn push_name_cause(text: &mut String, cause: &Cause) -> Result<(), NoMemory>
    ensures ok { OnOk result (string_bytes text.new ≡ string_bytes text.old ++ name_text cause.now) }
{
    match cause {
        Cause::NotHere { name } => write!(text, "0A000: column \"{name}\" cannot be altered here")?,
        Cause::NoTable { name } => write!(text, "42P01: table \"{name}\" does not exist")?,
        Cause::NoColumn { name } => write!(text, "42703: column \"{name}\" does not exist")?,
        Cause::NoConstraint { name } => {
            write!(text, "42704: constraint \"{name}\" does not exist")?;
        }
        Cause::TwiceTable { name } => write!(text, "42P07: table \"{name}\" already exists")?,
        Cause::TwiceColumn { name } => write!(text, "42701: column \"{name}\" already exists")?,
        Cause::TwiceConstraint { name } => {
            write!(text, "42710: constraint \"{name}\" already exists")?;
        }
        _ => {}
    }
    Ok(())
}

fn push_shape_cause(text: &mut String, cause: &Cause) -> Result<(), NoMemory>
    ensures ok { OnOk result (string_bytes text.new ≡ string_bytes text.old ++ shape_text cause.now) }
{
    match cause {
        Cause::BadParent { name } => write!(
            text,
            "42P07: table \"{name}\" cannot be a parent here"
        )?,
        Cause::WrongKind { place } => push_kind(text, *place)?,
        Cause::OtherKind { name } => write!(text, "42804: column \"{name}\" has another type")?,
        Cause::NotAllowed { name } => write!(text, "42P16: definition of \"{name}\" not allowed")?,
        Cause::NoKey { name } => write!(text, "42830: no key for foreign key \"{name}\"")?,
        Cause::Depends { name } => write!(text, "2BP01: \"{name}\" is still used")?,
        _ => push_name_cause(text, cause)?,
    }
    Ok(())
}

fn push_row_cause(text: &mut String, cause: &Cause) -> Result<(), NoMemory>
    ensures ok { OnOk result (string_bytes text.new ≡ string_bytes text.old ++ row_text cause.now) }
{
    match cause {
        Cause::Null { table, column, .. } => push_null(text, table, column)?,
        Cause::Check { table, name, .. } => push_check(text, table, name)?,
        Cause::Twice { table, name, .. } => push_key(text, table, name)?,
        Cause::Foreign { table, name, .. } => push_foreign(text, table, name)?,
        Cause::Fault { fault, .. } => text.push_str(fault_words(*fault))?,
        Cause::Changed { .. } => text.push_str("40001: row changed since the snapshot")?,
        _ => push_shape_cause(text, cause)?,
    }
    Ok(())
}

/// A cause: its SQLSTATE, and what is missing, doubled or in the way.
pub fn push_cause(text: &mut String, cause: &Cause) -> Result<(), NoMemory>
    ensures ok { OnOk result (string_bytes text.new ≡ string_bytes text.old ++ cause_text cause.now) }
{
    match cause {
        Cause::Syntax { at } => push_syntax(text, *at)?,
        Cause::NotInProfile { at } => push_left_out(text, *at)?,
        Cause::Count { want, got } => push_count(text, *want, *got)?,
        Cause::Cycle { .. } => text.push_str("40P01: deadlock detected")?,
        Cause::NoWait { table, .. } => push_locked(text, table)?,
        Cause::NoBlock => text.push_str("25P01: LOCK TABLE needs a transaction block")?,
        Cause::BlockFailed { .. } => text.push_str("25P02: transaction block has failed")?,
        Cause::Limit { what, .. } => push_limit(text, *what)?,
        Cause::Cancelled { .. } => text.push_str("57014: cancelled")?,
        _ => push_row_cause(text, cause)?,
    }
    Ok(())
}
