use al_values::{IdList, ListOf, Name, NameList, Txt};

/// Where a block of a spec file stands.
#[derive(Clone, Copy, Debug, PartialEq, Eq, Drop)]
pub enum Part {
    /// A setup block before the first session.
    Setup,
    /// A session's setup block.
    SessionSetup,
    /// A step of a session.
    Step,
    /// A session's teardown block.
    SessionTeardown,
    /// The teardown block before the first session.
    Teardown,
}

/// A block of a spec file.
#[derive(Debug, Drop)]
pub struct Block {
    /// Where it stands.
    pub part: Part,
    /// The session that it is given to: 0 is the control session, the file's sessions count from 1.
    pub session: u32,
    /// The step's name; empty where the block is no step.
    pub name: Name,
    /// What stands between its braces, without the spaces, tabs, carriage returns and form feeds at both ends. Line feeds
    /// stay.
    pub text: Txt,
}

/// Blocks, in the file's order.
pub type BlockList = ListOf<Block>;

/// Permutations, each a list of block numbers.
pub type PermutationList = ListOf<IdList>;

/// A spec file of the isolation tester (src/test/isolation/README).
#[derive(Debug, Drop)]
pub struct Spec {
    /// The sessions' names, in the file's order.
    pub sessions: NameList,
    /// The blocks, which count from 0 in the file's order.
    pub blocks: BlockList,
    /// The permutations, each a list of block numbers.
    pub permutations: PermutationList,
}

/// What a spec file has too much of.
#[derive(Clone, Copy, Debug, PartialEq, Eq, Drop)]
pub enum SpecLimit {
    /// More than 62 sessions.
    Sessions,
    /// More than 1,000 permutations.
    Permutations,
    /// More than 65,536 bytes in a block's text.
    Block,
    /// More than 1,000 steps in a permutation.
    Steps,
    /// More than 1,000,000 of work: for each permutation, each setup and teardown block of the file, and each step as often
    /// as the permutation names it, count 1, and 1 more for each `;` of their text.
    Work,
}

/// Why bytes are no spec file, and at which byte.
#[derive(Clone, Copy, Debug, PartialEq, Eq, Drop)]
pub enum SpecFault {
    /// The first byte of the first sequence that isn't UTF-8.
    Utf8 { at: u32 },
    /// The first token that can't stand there; the input's length where it ends too early, or something isn't closed.
    Syntax { at: u32 },
    /// A `(` after a name in a permutation.
    Marker { at: u32 },
    /// The name of a second step of the same name.
    TwoSteps { at: u32 },
    /// A name in a permutation that no step has.
    NoStep { at: u32 },
    /// The session name, block, permutation word or step name whose counting passes a limit; for the work the permutation
    /// word.
    Limit { at: u32, what: SpecLimit },
    /// A file without a permutation, where one is needed. Reading never gives it.
    NoPermutation,
}
