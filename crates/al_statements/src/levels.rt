ghost use Rattle.std.specs.Prelude.{◌≡◌};
ghost use Rattle.al_statements.specs.Levels.{level_is, pass_is, stricter_of, strictest_of, IsStrictest};

use crate::{Rule, Sub, SubList};
use al_modes::Mode;

/// The mode in which a subcommand locks its table (the manual, ALTER TABLE and 13.3.1).
pub fn level(sub: &Sub) -> Mode
    ensures { result ≡ level_is sub.now }
{
    match sub {
        Sub::AddConstraint(constraint, _) => match &constraint.rule {
            Rule::ForeignKey(_, _, _) => Mode::ShareRowExclusive,
            Rule::Check(_, _) | Rule::Unique(_) | Rule::PrimaryKey(_) => Mode::AccessExclusive,
        },
        Sub::Validate(_) | Sub::SetStatistics(_, _) | Sub::SetFillfactor(_) => {
            Mode::ShareUpdateExclusive
        }
        Sub::AddColumn(_)
        | Sub::DropColumn(_)
        | Sub::DropConstraint(_)
        | Sub::AlterType(_, _, _)
        | Sub::SetDefault(_, _)
        | Sub::DropDefault(_)
        | Sub::SetNotNull(_)
        | Sub::DropNotNull(_)
        | Sub::Inherit(_)
        | Sub::NoInherit(_) => Mode::AccessExclusive,
    }
}

fn stricter(a: Mode, b: Mode) -> Mode
    ensures { result ≡ stricter_of a b }
{
    if a.strictness() < b.strictness() {
        b
    } else {
        a
    }
}

fn strictest(subs: &[Sub]) -> Mode
    ensures { result ≡ strictest_of subs.now }
{
    let mut strictest = Mode::AccessShare;
    for sub in subs {
        strictest = stricter(strictest, level(sub));
    }
    strictest
}

/// The mode in which an ALTER TABLE locks its table: the strictest of its subcommands' (the manual, ALTER TABLE).
#[tactic(auto, using(crate::proofs::Strictest::is_strictest))]
pub fn level_of(subs: &SubList) -> Mode
    ensures { IsStrictest subs.now result }
{
    strictest(subs.as_slice())
}

/// The pass in which a subcommand is done, from 1 to 8: an ALTER TABLE does its subcommands pass by pass, each pass in
/// written order.
pub fn pass_of(sub: &Sub) -> u8
    ensures { result ≡ pass_is sub.now }
{
    match sub {
        Sub::DropColumn(_) | Sub::DropConstraint(_) | Sub::DropDefault(_) | Sub::DropNotNull(_) =>
            1,
        Sub::AlterType(_, _, _) => 2,
        Sub::AddColumn(_) => 4,
        Sub::SetNotNull(_) => 5,
        Sub::AddConstraint(constraint, _) => match &constraint.rule {
            Rule::Unique(_) | Rule::PrimaryKey(_) => 6,
            Rule::Check(_, _) | Rule::ForeignKey(_, _, _) => 7,
        },
        Sub::SetDefault(_, _) => 7,
        Sub::Validate(_)
        | Sub::SetStatistics(_, _)
        | Sub::SetFillfactor(_)
        | Sub::Inherit(_)
        | Sub::NoInherit(_) => 8,
    }
}
