ghost use Rattle.std.specs.Prelude.{ℕ, true, ◌≡◌, List, map};
ghost use Rattle.al_lexemes.specs.Words.{ascending, kind_in, is_in, word_kind, is_left_out, rows_of, texts_of};

use al_phrases::kinds::ABORT;
use al_phrases::kinds::ABS_CALL;
use al_phrases::kinds::ACCESS;
use al_phrases::kinds::ADD;
use al_phrases::kinds::ALTER;
use al_phrases::kinds::AND;
use al_phrases::kinds::AS;
use al_phrases::kinds::ASC;
use al_phrases::kinds::BEGIN;
use al_phrases::kinds::BETWEEN;
use al_phrases::kinds::BIGINT;
use al_phrases::kinds::BOOL;
use al_phrases::kinds::BOOLEAN;
use al_phrases::kinds::BY;
use al_phrases::kinds::CAST;
use al_phrases::kinds::CHARACTER;
use al_phrases::kinds::CHECK;
use al_phrases::kinds::COALESCE_CALL;
use al_phrases::kinds::COLUMN;
use al_phrases::kinds::COMMIT;
use al_phrases::kinds::COMMITTED;
use al_phrases::kinds::CONSTRAINT;
use al_phrases::kinds::COUNT;
use al_phrases::kinds::COUNT_CALL;
use al_phrases::kinds::CREATE;
use al_phrases::kinds::DATA;
use al_phrases::kinds::DATE;
use al_phrases::kinds::DEADLOCK_TIMEOUT;
use al_phrases::kinds::DEFAULT;
use al_phrases::kinds::DELETE;
use al_phrases::kinds::DESC;
use al_phrases::kinds::DROP;
use al_phrases::kinds::END;
use al_phrases::kinds::EXCLUSIVE;
use al_phrases::kinds::EXISTS;
use al_phrases::kinds::FALSE;
use al_phrases::kinds::FILLFACTOR;
use al_phrases::kinds::FOR;
use al_phrases::kinds::FOREIGN;
use al_phrases::kinds::FROM;
use al_phrases::kinds::GENERATE_SERIES;
use al_phrases::kinds::IF;
use al_phrases::kinds::IN;
use al_phrases::kinds::INHERIT;
use al_phrases::kinds::INHERITS;
use al_phrases::kinds::INSERT;
use al_phrases::kinds::INT;
use al_phrases::kinds::INT2;
use al_phrases::kinds::INT4;
use al_phrases::kinds::INT8;
use al_phrases::kinds::INTEGER;
use al_phrases::kinds::INTO;
use al_phrases::kinds::IS;
use al_phrases::kinds::ISOLATION;
use al_phrases::kinds::KEY;
use al_phrases::kinds::LENGTH_CALL;
use al_phrases::kinds::LEVEL;
use al_phrases::kinds::LOCAL;
use al_phrases::kinds::LOCK;
use al_phrases::kinds::LOCK_TIMEOUT;
use al_phrases::kinds::MAX;
use al_phrases::kinds::MAX_CALL;
use al_phrases::kinds::MIN;
use al_phrases::kinds::MIN_CALL;
use al_phrases::kinds::MODE;
use al_phrases::kinds::NAME;
use al_phrases::kinds::NO;
use al_phrases::kinds::NOT;
use al_phrases::kinds::NOWAIT;
use al_phrases::kinds::NULL;
use al_phrases::kinds::ONLY;
use al_phrases::kinds::OR;
use al_phrases::kinds::ORDER;
use al_phrases::kinds::PRIMARY;
use al_phrases::kinds::READ;
use al_phrases::kinds::REFERENCES;
use al_phrases::kinds::RENAME;
use al_phrases::kinds::REPEATABLE;
use al_phrases::kinds::RESTRICT;
use al_phrases::kinds::ROLLBACK;
use al_phrases::kinds::ROW;
use al_phrases::kinds::SELECT;
use al_phrases::kinds::SESSION;
use al_phrases::kinds::SET;
use al_phrases::kinds::SHARE;
use al_phrases::kinds::SMALLINT;
use al_phrases::kinds::START;
use al_phrases::kinds::STATEMENT_TIMEOUT;
use al_phrases::kinds::STATISTICS;
use al_phrases::kinds::TABLE;
use al_phrases::kinds::TEXT;
use al_phrases::kinds::TO;
use al_phrases::kinds::TRANSACTION;
use al_phrases::kinds::TRUE;
use al_phrases::kinds::TYPE;
use al_phrases::kinds::UNIQUE;
use al_phrases::kinds::UPDATE;
use al_phrases::kinds::USING;
use al_phrases::kinds::VALID;
use al_phrases::kinds::VALIDATE;
use al_phrases::kinds::VALUES;
use al_phrases::kinds::VARCHAR;
use al_phrases::kinds::VARYING;
use al_phrases::kinds::WHERE;
use al_phrases::kinds::WORK;
use std::cmp::Ordering;

// The words that the grammar names, in the alphabet's order.
const WORDS: [(&[u8], u8); 98] = [
    (b"abort", ABORT),
    (b"access", ACCESS),
    (b"add", ADD),
    (b"alter", ALTER),
    (b"and", AND),
    (b"as", AS),
    (b"asc", ASC),
    (b"begin", BEGIN),
    (b"between", BETWEEN),
    (b"bigint", BIGINT),
    (b"bool", BOOL),
    (b"boolean", BOOLEAN),
    (b"by", BY),
    (b"cast", CAST),
    (b"character", CHARACTER),
    (b"check", CHECK),
    (b"column", COLUMN),
    (b"commit", COMMIT),
    (b"committed", COMMITTED),
    (b"constraint", CONSTRAINT),
    (b"count", COUNT),
    (b"create", CREATE),
    (b"data", DATA),
    (b"date", DATE),
    (b"deadlock_timeout", DEADLOCK_TIMEOUT),
    (b"default", DEFAULT),
    (b"delete", DELETE),
    (b"desc", DESC),
    (b"drop", DROP),
    (b"end", END),
    (b"exclusive", EXCLUSIVE),
    (b"exists", EXISTS),
    (b"false", FALSE),
    (b"fillfactor", FILLFACTOR),
    (b"for", FOR),
    (b"foreign", FOREIGN),
    (b"from", FROM),
    (b"generate_series", GENERATE_SERIES),
    (b"if", IF),
    (b"in", IN),
    (b"inherit", INHERIT),
    (b"inherits", INHERITS),
    (b"insert", INSERT),
    (b"int", INT),
    (b"int2", INT2),
    (b"int4", INT4),
    (b"int8", INT8),
    (b"integer", INTEGER),
    (b"into", INTO),
    (b"is", IS),
    (b"isolation", ISOLATION),
    (b"key", KEY),
    (b"level", LEVEL),
    (b"local", LOCAL),
    (b"lock", LOCK),
    (b"lock_timeout", LOCK_TIMEOUT),
    (b"max", MAX),
    (b"min", MIN),
    (b"mode", MODE),
    (b"no", NO),
    (b"not", NOT),
    (b"nowait", NOWAIT),
    (b"null", NULL),
    (b"only", ONLY),
    (b"or", OR),
    (b"order", ORDER),
    (b"primary", PRIMARY),
    (b"read", READ),
    (b"references", REFERENCES),
    (b"rename", RENAME),
    (b"repeatable", REPEATABLE),
    (b"restrict", RESTRICT),
    (b"rollback", ROLLBACK),
    (b"row", ROW),
    (b"select", SELECT),
    (b"session", SESSION),
    (b"set", SET),
    (b"share", SHARE),
    (b"smallint", SMALLINT),
    (b"start", START),
    (b"statement_timeout", STATEMENT_TIMEOUT),
    (b"statistics", STATISTICS),
    (b"table", TABLE),
    (b"text", TEXT),
    (b"to", TO),
    (b"transaction", TRANSACTION),
    (b"true", TRUE),
    (b"type", TYPE),
    (b"unique", UNIQUE),
    (b"update", UPDATE),
    (b"using", USING),
    (b"valid", VALID),
    (b"validate", VALIDATE),
    (b"values", VALUES),
    (b"varchar", VARCHAR),
    (b"varying", VARYING),
    (b"where", WHERE),
    (b"work", WORK),
];

// The words that have other kinds directly before a parenthesis, in the alphabet's order.
const CALLS: [(&[u8], u8); 6] = [
    (b"abs", ABS_CALL),
    (b"coalesce", COALESCE_CALL),
    (b"count", COUNT_CALL),
    (b"length", LENGTH_CALL),
    (b"max", MAX_CALL),
    (b"min", MIN_CALL),
];

// The words whose statements and clauses are left out.
const LEFT_OUT: [&[u8]; 49] = [
    b"analyze",
    b"attach",
    b"cascade",
    b"case",
    b"copy",
    b"decimal",
    b"deferrable",
    b"detach",
    b"distinct",
    b"do",
    b"double",
    b"except",
    b"exclude",
    b"explain",
    b"generated",
    b"grant",
    b"group",
    b"having",
    b"identity",
    b"index",
    b"intersect",
    b"join",
    b"like",
    b"limit",
    b"merge",
    b"numeric",
    b"offset",
    b"on",
    b"owner",
    b"partition",
    b"prepare",
    b"real",
    b"release",
    b"returning",
    b"rule",
    b"savepoint",
    b"schema",
    b"sequence",
    b"serializable",
    b"temp",
    b"temporary",
    b"timestamp",
    b"transaction",
    b"trigger",
    b"truncate",
    b"union",
    b"vacuum",
    b"view",
    b"with",
];

// The kind of a word in a table in the alphabet's order, or another where it isn't there.
#[tactic(auto, using(crate::proofs::Tables::at_place, crate::proofs::Tables::below_place, crate::proofs::Tables::above_place))]
fn kind_in(table: &[(&[u8], u8)], other: u8, word: &[u8]) -> u8
    requires { ascending (rows_of table.now) ≡ true }
    ensures { result ≡ kind_in (rows_of table.now) other word.now }
{
    let mut rows = table;
    while !rows.is_empty() {
        let middle = rows.len() / 2;
        match word.cmp(rows[middle].0) {
            Ordering::Equal => return rows[middle].1,
            Ordering::Less => rows = &rows[..middle],
            Ordering::Greater => rows = &rows[middle + 1..],
        }
    }
    other
}

// Whether a word stands in a list. It is asked once for a faulty text.
fn is_in(words: &[&[u8]], word: &[u8]) -> bool
    ensures { result ≡ is_in (texts_of words.now) word.now }
{
    let mut rest = words;
    while let [first, behind @ ..] = rest {
        if *first == word {
            return true;
        }
        rest = behind;
    }
    false
}

/// The kind of a word in small letters, before a parenthesis or not.
#[tactic(auto, unfolding(crate::specs::Words::word_kind))]
pub fn word_kind(paren: bool, word: &[u8]) -> u8
    ensures { result ≡ word_kind paren word.now }
{
    let plain = kind_in(&WORDS, NAME, word);
    if paren {
        return kind_in(&CALLS, plain, word);
    }
    plain
}

/// Whether a word in small letters is one of SQL's that are left out.
#[tactic(auto, unfolding(crate::specs::Words::is_left_out))]
pub fn is_left_out(word: &[u8]) -> bool
    ensures { result ≡ is_left_out word.now }
{
    is_in(&LEFT_OUT, word)
}
