ghost use Rattle.std.specs.Prelude.{ℕ, false, ◌≡◌, List, [], ◌∷◌, length, Ok, Err, MatchResult, MatchOption, IfSome, ◌≤◌};
ghost use Rattle.al_grammar.specs.Kinds.{starts};
ghost use Rattle.al_grammar.specs.Rules.{many, optional};
ghost use Rattle.al_grammar.specs.Skim.{skim, skim_token};
ghost use Rattle.al_grammar.specs.Whole.{whole_of};
ghost use Rattle.al_spec.specs.declared.kinds.Kind.TheVariants as kinds;
ghost use Rattle.al_spec.specs.Grammar.{kind, number, kind_of, name, block_after, step, steps, session_end, session_parts, session, sessions, permutation, bodies, late, file, File};

use crate::kinds::{Kind, Lexeme, Token, Word};

fn kind(lexeme: &Lexeme) -> Kind
    ensures { result ≡ kind lexeme.now }
{
    match lexeme {
        Lexeme::Word(Word::Setup) => Kind::Setup,
        Lexeme::Word(Word::Teardown) => Kind::Teardown,
        Lexeme::Word(Word::Session) => Kind::Session,
        Lexeme::Word(Word::Step) => Kind::Step,
        Lexeme::Word(Word::Permutation) => Kind::Permutation,
        Lexeme::Name(_) | Lexeme::OpenName => Kind::Name,
        Lexeme::Block(_) | Lexeme::OpenBlock => Kind::Block,
        Lexeme::Unclosed | Lexeme::Paren | Lexeme::Stray => Kind::Other,
    }
}

fn number(kind: Kind) -> u8
    ensures { result ≡ number kind }
{
    match kind {
        Kind::Setup => 0,
        Kind::Teardown => 1,
        Kind::Session => 2,
        Kind::Step => 3,
        Kind::Permutation => 4,
        Kind::Name => 5,
        Kind::Block => 6,
        Kind::Other => 7,
    }
}

// Whether the first token is of a kind.
fn starts(wanted: Kind, tokens: &[Token]) -> bool
    ensures { result ≡ starts kind_of false (number wanted ∷ []) tokens.now }
{
    match tokens.first() {
        None => false,
        Some(token) => number(kind(&token.lexeme)) == number(wanted),
    }
}

// The tokens behind one of a kind; or how many are left where there is another, or none.
fn take<'t, 'a>(wanted: Kind, tokens: &'t [Token<'a>]) -> Result<&'t [Token<'a>], usize>
    ensures { MatchResult result (λ rest. skim_token kind_of (number wanted) tokens.now ≡ Ok rest.now) (λ left. skim_token kind_of (number wanted) tokens.now ≡ Err left) }
{
    if !starts(wanted, tokens) {
        return Err(tokens.len());
    }
    Ok(&tokens[1..])
}

fn block_after<'t, 'a>(word: Kind, tokens: &'t [Token<'a>]) -> Result<&'t [Token<'a>], usize>
    ensures { MatchResult result (λ rest. skim ((block_after word).reads tokens.now) ≡ Ok rest.now) (λ left. skim ((block_after word).reads tokens.now) ≡ Err left) }
{
    let rest = take(word, tokens)?;
    take(Kind::Block, rest)
}

fn optional_block<'t, 'a>(word: Kind, tokens: &'t [Token<'a>]) -> Result<&'t [Token<'a>], usize>
    ensures { MatchResult result (λ rest. skim ((optional kind_of (block_after word)).reads tokens.now) ≡ Ok rest.now) (λ left. skim ((optional kind_of (block_after word)).reads tokens.now) ≡ Err left) }
{
    if !starts(word, tokens) {
        return Ok(tokens);
    }
    block_after(word, tokens)
}

fn setups<'t, 'a>(tokens: &'t [Token<'a>]) -> Result<&'t [Token<'a>], usize>
    ensures { MatchResult result (λ rest. skim ((many kind_of (block_after kinds.Setup)).reads tokens.now) ≡ Ok rest.now) (λ left. skim ((many kind_of (block_after kinds.Setup)).reads tokens.now) ≡ Err left) }
{
    let mut from = 0;
    while starts(Kind::Setup, &tokens[from..]) {
        let rest = block_after(Kind::Setup, &tokens[from..])?;
        from = tokens.len() - rest.len();
    }
    Ok(&tokens[from..])
}

fn step<'t, 'a>(tokens: &'t [Token<'a>]) -> Result<&'t [Token<'a>], usize>
    ensures { MatchResult result (λ rest. skim (step.reads tokens.now) ≡ Ok rest.now) (λ left. skim (step.reads tokens.now) ≡ Err left) }
{
    let named = take(Kind::Step, tokens)?;
    let rest = take(Kind::Name, named)?;
    take(Kind::Block, rest)
}

fn more_steps<'t, 'a>(tokens: &'t [Token<'a>]) -> Result<&'t [Token<'a>], usize>
    ensures { MatchResult result (λ rest. skim ((many kind_of step).reads tokens.now) ≡ Ok rest.now) (λ left. skim ((many kind_of step).reads tokens.now) ≡ Err left) }
{
    let mut from = 0;
    while starts(Kind::Step, &tokens[from..]) {
        let rest = step(&tokens[from..])?;
        from = tokens.len() - rest.len();
    }
    Ok(&tokens[from..])
}

fn steps<'t, 'a>(tokens: &'t [Token<'a>]) -> Result<&'t [Token<'a>], usize>
    ensures { MatchResult result (λ rest. skim (steps.reads tokens.now) ≡ Ok rest.now) (λ left. skim (steps.reads tokens.now) ≡ Err left) }
{
    let rest = step(tokens)?;
    more_steps(rest)
}

fn session_end<'t, 'a>(tokens: &'t [Token<'a>]) -> Result<&'t [Token<'a>], usize>
    ensures { MatchResult result (λ rest. skim (session_end.reads tokens.now) ≡ Ok rest.now) (λ left. skim (session_end.reads tokens.now) ≡ Err left) }
{
    let rest = steps(tokens)?;
    optional_block(Kind::Teardown, rest)
}

fn session_parts<'t, 'a>(tokens: &'t [Token<'a>]) -> Result<&'t [Token<'a>], usize>
    ensures { MatchResult result (λ rest. skim (session_parts.reads tokens.now) ≡ Ok rest.now) (λ left. skim (session_parts.reads tokens.now) ≡ Err left) }
{
    let rest = optional_block(Kind::Setup, tokens)?;
    session_end(rest)
}

fn session<'t, 'a>(tokens: &'t [Token<'a>]) -> Result<&'t [Token<'a>], usize>
    ensures { MatchResult result (λ rest. skim (session.reads tokens.now) ≡ Ok rest.now) (λ left. skim (session.reads tokens.now) ≡ Err left) }
{
    let named = take(Kind::Session, tokens)?;
    let rest = take(Kind::Name, named)?;
    session_parts(rest)
}

fn more_sessions<'t, 'a>(tokens: &'t [Token<'a>]) -> Result<&'t [Token<'a>], usize>
    ensures { MatchResult result (λ rest. skim ((many kind_of session).reads tokens.now) ≡ Ok rest.now) (λ left. skim ((many kind_of session).reads tokens.now) ≡ Err left) }
{
    let mut from = 0;
    while starts(Kind::Session, &tokens[from..]) {
        let rest = session(&tokens[from..])?;
        from = tokens.len() - rest.len();
    }
    Ok(&tokens[from..])
}

fn sessions<'t, 'a>(tokens: &'t [Token<'a>]) -> Result<&'t [Token<'a>], usize>
    ensures { MatchResult result (λ rest. skim (sessions.reads tokens.now) ≡ Ok rest.now) (λ left. skim (sessions.reads tokens.now) ≡ Err left) }
{
    let rest = session(tokens)?;
    more_sessions(rest)
}

fn name<'t, 'a>(tokens: &'t [Token<'a>]) -> Result<&'t [Token<'a>], usize>
    ensures { MatchResult result (λ rest. skim (name.reads tokens.now) ≡ Ok rest.now) (λ left. skim (name.reads tokens.now) ≡ Err left) }
{
    take(Kind::Name, tokens)
}

fn more_names<'t, 'a>(tokens: &'t [Token<'a>]) -> Result<&'t [Token<'a>], usize>
    ensures { MatchResult result (λ rest. skim ((many kind_of name).reads tokens.now) ≡ Ok rest.now) (λ left. skim ((many kind_of name).reads tokens.now) ≡ Err left) }
{
    let mut from = 0;
    while starts(Kind::Name, &tokens[from..]) {
        let rest = name(&tokens[from..])?;
        from = tokens.len() - rest.len();
    }
    Ok(&tokens[from..])
}

fn permutation<'t, 'a>(tokens: &'t [Token<'a>]) -> Result<&'t [Token<'a>], usize>
    ensures { MatchResult result (λ rest. skim (permutation.reads tokens.now) ≡ Ok rest.now) (λ left. skim (permutation.reads tokens.now) ≡ Err left) }
{
    let named = take(Kind::Permutation, tokens)?;
    let rest = take(Kind::Name, named)?;
    more_names(rest)
}

fn permutations<'t, 'a>(tokens: &'t [Token<'a>]) -> Result<&'t [Token<'a>], usize>
    ensures { MatchResult result (λ rest. skim ((many kind_of permutation).reads tokens.now) ≡ Ok rest.now) (λ left. skim ((many kind_of permutation).reads tokens.now) ≡ Err left) }
{
    let mut from = 0;
    while starts(Kind::Permutation, &tokens[from..]) {
        let rest = permutation(&tokens[from..])?;
        from = tokens.len() - rest.len();
    }
    Ok(&tokens[from..])
}

fn bodies<'t, 'a>(tokens: &'t [Token<'a>]) -> Result<&'t [Token<'a>], usize>
    ensures { MatchResult result (λ rest. skim (bodies.reads tokens.now) ≡ Ok rest.now) (λ left. skim (bodies.reads tokens.now) ≡ Err left) }
{
    let rest = sessions(tokens)?;
    permutations(rest)
}

fn late<'t, 'a>(tokens: &'t [Token<'a>]) -> Result<&'t [Token<'a>], usize>
    ensures { MatchResult result (λ rest. skim (late.reads tokens.now) ≡ Ok rest.now) (λ left. skim (late.reads tokens.now) ≡ Err left) }
{
    let rest = optional_block(Kind::Teardown, tokens)?;
    bodies(rest)
}

fn file<'t, 'a>(tokens: &'t [Token<'a>]) -> Result<&'t [Token<'a>], usize>
    ensures { MatchResult result (λ rest. skim (file.reads tokens.now) ≡ Ok rest.now) (λ left. skim (file.reads tokens.now) ≡ Err left) }
{
    let rest = setups(tokens)?;
    late(rest)
}

/// How many tokens are left from the first that can't stand where it stands, none where they end too early; nothing
/// where the tokens are a spec file's.
pub fn syntax(tokens: &[Token]) -> Option<usize>
    ensures bound { IfSome result (λ left. left ≤ length tokens.now) }
    ensures whole { MatchOption result ((v : File) × (whole_of (file.reads tokens.now) ≡ Ok v)) (λ left. whole_of (file.reads tokens.now) ≡ Err left) }
{
    match file(tokens) {
        Err(left) => Some(left),
        Ok(rest) => {
            if rest.is_empty() {
                return None;
            }
            Some(rest.len())
        }
    }
}
