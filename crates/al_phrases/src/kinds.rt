//! Kinds of tokens as the grammar tells them apart. Words that may be names stand in a row, from 60 to 134.

/// `(`.
pub const LEFT_PAREN: u8 = 1;
/// `)`.
pub const RIGHT_PAREN: u8 = 2;
/// `,`.
pub const COMMA: u8 = 3;
/// `;`.
pub const SEMICOLON: u8 = 4;
/// `.`.
pub const POINT: u8 = 5;
/// `=`.
pub const EQUAL: u8 = 6;
/// `<>`.
pub const NOT_EQUAL: u8 = 7;
/// `<`.
pub const LESS: u8 = 8;
/// `<=`.
pub const LESS_OR_EQUAL: u8 = 9;
/// `>`.
pub const GREATER: u8 = 10;
/// `>=`.
pub const GREATER_OR_EQUAL: u8 = 11;
/// `+`.
pub const PLUS: u8 = 12;
/// `-`.
pub const MINUS: u8 = 13;
/// `*`.
pub const STAR: u8 = 14;
/// `/`.
pub const SLASH: u8 = 15;
/// `%`.
pub const PERCENT: u8 = 16;
/// `||`.
pub const JOINED: u8 = 17;
/// `::`.
pub const CAST_SIGN: u8 = 18;
/// An integer of 64 bits without its sign.
pub const INTEGER_TOKEN: u8 = 19;
/// A text in single quotes.
pub const TEXT_TOKEN: u8 = 20;
/// A token that no rule takes.
pub const UNTAKEN: u8 = 21;
/// Stands in for a parenthesis that opens a level too many; no text has it.
pub const DEEP_PAREN: u8 = 22;
/// Stands in for a NOT that opens a level too many; no text has it.
pub const DEEP_NOT: u8 = 23;
/// Stands in for a sign that opens a level too many; no text has it.
pub const DEEP_SIGN: u8 = 24;
/// Stands in for FOR behind aggregates; no text has it.
pub const LATE_FOR: u8 = 25;
/// Stands in for a second DEFAULT of a column; no text has it.
pub const LATE_DEFAULT: u8 = 26;
/// Stands in for a second PRIMARY of a column; no text has it.
pub const LATE_PRIMARY: u8 = 27;
/// AND.
pub const AND: u8 = 30;
/// AS.
pub const AS: u8 = 31;
/// BETWEEN.
pub const BETWEEN: u8 = 32;
/// CAST.
pub const CAST: u8 = 33;
/// CHECK.
pub const CHECK: u8 = 34;
/// COLUMN.
pub const COLUMN: u8 = 35;
/// CONSTRAINT.
pub const CONSTRAINT: u8 = 36;
/// CREATE.
pub const CREATE: u8 = 37;
/// DEFAULT.
pub const DEFAULT: u8 = 38;
/// FALSE.
pub const FALSE: u8 = 39;
/// FOR.
pub const FOR: u8 = 40;
/// FOREIGN.
pub const FOREIGN: u8 = 41;
/// FROM.
pub const FROM: u8 = 42;
/// IN.
pub const IN: u8 = 43;
/// INTO.
pub const INTO: u8 = 44;
/// IS.
pub const IS: u8 = 45;
/// NOT.
pub const NOT: u8 = 46;
/// NULL.
pub const NULL: u8 = 47;
/// ONLY.
pub const ONLY: u8 = 48;
/// OR.
pub const OR: u8 = 49;
/// ORDER.
pub const ORDER: u8 = 50;
/// PRIMARY.
pub const PRIMARY: u8 = 51;
/// REFERENCES.
pub const REFERENCES: u8 = 52;
/// SELECT.
pub const SELECT: u8 = 53;
/// TABLE.
pub const TABLE: u8 = 54;
/// TO.
pub const TO: u8 = 55;
/// TRUE.
pub const TRUE: u8 = 56;
/// UNIQUE.
pub const UNIQUE: u8 = 57;
/// USING.
pub const USING: u8 = 58;
/// WHERE.
pub const WHERE: u8 = 59;
/// BEGIN.
pub const BEGIN: u8 = 60;
/// WORK.
pub const WORK: u8 = 61;
/// TRANSACTION.
pub const TRANSACTION: u8 = 62;
/// START.
pub const START: u8 = 63;
/// ISOLATION.
pub const ISOLATION: u8 = 64;
/// LEVEL.
pub const LEVEL: u8 = 65;
/// READ.
pub const READ: u8 = 66;
/// COMMITTED.
pub const COMMITTED: u8 = 67;
/// REPEATABLE.
pub const REPEATABLE: u8 = 68;
/// COMMIT.
pub const COMMIT: u8 = 69;
/// END.
pub const END: u8 = 70;
/// ROLLBACK.
pub const ROLLBACK: u8 = 71;
/// ABORT.
pub const ABORT: u8 = 72;
/// SET.
pub const SET: u8 = 73;
/// LOCAL.
pub const LOCAL: u8 = 74;
/// SESSION.
pub const SESSION: u8 = 75;
/// DEADLOCK_TIMEOUT.
pub const DEADLOCK_TIMEOUT: u8 = 76;
/// LOCK_TIMEOUT.
pub const LOCK_TIMEOUT: u8 = 77;
/// STATEMENT_TIMEOUT.
pub const STATEMENT_TIMEOUT: u8 = 78;
/// LOCK.
pub const LOCK: u8 = 79;
/// MODE.
pub const MODE: u8 = 80;
/// NOWAIT.
pub const NOWAIT: u8 = 81;
/// INHERITS.
pub const INHERITS: u8 = 82;
/// DROP.
pub const DROP: u8 = 83;
/// IF.
pub const IF: u8 = 84;
/// EXISTS.
pub const EXISTS: u8 = 85;
/// RESTRICT.
pub const RESTRICT: u8 = 86;
/// INSERT.
pub const INSERT: u8 = 87;
/// VALUES.
pub const VALUES: u8 = 88;
/// UPDATE.
pub const UPDATE: u8 = 89;
/// DELETE.
pub const DELETE: u8 = 90;
/// BY.
pub const BY: u8 = 91;
/// NO.
pub const NO: u8 = 92;
/// KEY.
pub const KEY: u8 = 93;
/// SHARE.
pub const SHARE: u8 = 94;
/// ACCESS.
pub const ACCESS: u8 = 95;
/// ROW.
pub const ROW: u8 = 96;
/// EXCLUSIVE.
pub const EXCLUSIVE: u8 = 97;
/// INHERIT.
pub const INHERIT: u8 = 98;
/// ALTER.
pub const ALTER: u8 = 99;
/// DATA.
pub const DATA: u8 = 100;
/// TYPE.
pub const TYPE: u8 = 101;
/// STATISTICS.
pub const STATISTICS: u8 = 102;
/// VALIDATE.
pub const VALIDATE: u8 = 103;
/// VALID.
pub const VALID: u8 = 104;
/// FILLFACTOR.
pub const FILLFACTOR: u8 = 105;
/// RENAME.
pub const RENAME: u8 = 106;
/// ADD.
pub const ADD: u8 = 107;
/// GENERATE_SERIES.
pub const GENERATE_SERIES: u8 = 108;
/// ASC.
pub const ASC: u8 = 109;
/// DESC.
pub const DESC: u8 = 110;
/// SMALLINT.
pub const SMALLINT: u8 = 111;
/// INT2.
pub const INT2: u8 = 112;
/// INTEGER.
pub const INTEGER: u8 = 113;
/// INT.
pub const INT: u8 = 114;
/// INT4.
pub const INT4: u8 = 115;
/// BIGINT.
pub const BIGINT: u8 = 116;
/// INT8.
pub const INT8: u8 = 117;
/// BOOLEAN.
pub const BOOLEAN: u8 = 118;
/// BOOL.
pub const BOOL: u8 = 119;
/// TEXT.
pub const TEXT: u8 = 120;
/// VARCHAR.
pub const VARCHAR: u8 = 121;
/// CHARACTER.
pub const CHARACTER: u8 = 122;
/// VARYING.
pub const VARYING: u8 = 123;
/// COUNT.
pub const COUNT: u8 = 124;
/// MIN.
pub const MIN: u8 = 125;
/// MAX.
pub const MAX: u8 = 126;
/// A word that no rule names, or a quoted name.
pub const NAME: u8 = 127;
/// `count` directly before a parenthesis.
pub const COUNT_CALL: u8 = 128;
/// `min` directly before a parenthesis.
pub const MIN_CALL: u8 = 129;
/// `max` directly before a parenthesis.
pub const MAX_CALL: u8 = 130;
/// `date`.
pub const DATE: u8 = 131;
/// `coalesce` directly before a parenthesis.
pub const COALESCE_CALL: u8 = 132;
/// `abs` directly before a parenthesis.
pub const ABS_CALL: u8 = 133;
/// `length` directly before a parenthesis.
pub const LENGTH_CALL: u8 = 134;
