// The numbers of the paper, each under one name: raw kinds, glued kinds, nodes, steps, error codes and refusals.
// Kinds, nodes and codes are bytes and steps are u32, and no enums: so they stand in the lent lists, and the machine's calls refuse (8) the
// numbers that an enum would leave out.

// Past the end of the tokens.
pub const EOF: u8 = 0;

// Raw kinds, 1 to 29.
pub const IDENT: u8 = 1;

pub const INT_NUMBER: u8 = 2;

pub const FLOAT_NUMBER: u8 = 3;

pub const STRING: u8 = 4;

pub const TRUE_KW: u8 = 5;

pub const FALSE_KW: u8 = 6;

pub const AS_KW: u8 = 7;

pub const MUT_KW: u8 = 8;

pub const AWAIT_KW: u8 = 9;

pub const L_PAREN: u8 = 10;

pub const R_PAREN: u8 = 11;

pub const L_BRACK: u8 = 12;

pub const R_BRACK: u8 = 13;

pub const COMMA: u8 = 14;

pub const COLON: u8 = 15;

pub const DOT: u8 = 16;

pub const AMP: u8 = 17;

pub const PIPE: u8 = 18;

pub const PLUS: u8 = 19;

pub const MINUS: u8 = 20;

pub const STAR: u8 = 21;

pub const SLASH: u8 = 22;

pub const PERCENT: u8 = 23;

pub const CARET: u8 = 24;

pub const BANG: u8 = 25;

pub const EQ: u8 = 26;

pub const L_ANGLE: u8 = 27;

pub const R_ANGLE: u8 = 28;

pub const QUESTION: u8 = 29;

// Glued kinds, 40 to 63: several raw tokens that touch.
pub const MINUSEQ: u8 = 40;

pub const THIN_ARROW: u8 = 41;

pub const COLON2: u8 = 42;

pub const NEQ: u8 = 43;

pub const DOT2: u8 = 44;

pub const STAREQ: u8 = 45;

pub const SLASHEQ: u8 = 46;

pub const AMP2: u8 = 47;

pub const AMPEQ: u8 = 48;

pub const PERCENTEQ: u8 = 49;

pub const CARETEQ: u8 = 50;

pub const PLUSEQ: u8 = 51;

pub const SHL: u8 = 52;

pub const LTEQ: u8 = 53;

pub const EQ2: u8 = 54;

pub const FAT_ARROW: u8 = 55;

pub const GTEQ: u8 = 56;

pub const SHR: u8 = 57;

pub const PIPEEQ: u8 = 58;

pub const PIPE2: u8 = 59;

pub const DOT3: u8 = 60;

pub const DOT2EQ: u8 = 61;

pub const SHLEQ: u8 = 62;

pub const SHREQ: u8 = 63;

// Nodes, 80 to 99.
pub const ERROR: u8 = 80;

pub const LITERAL: u8 = 81;

pub const PATH_EXPR: u8 = 82;

pub const PATH: u8 = 83;

pub const PATH_SEGMENT: u8 = 84;

pub const NAME_REF: u8 = 85;

pub const PAREN_EXPR: u8 = 86;

pub const REF_EXPR: u8 = 87;

pub const PREFIX_EXPR: u8 = 88;

pub const BIN_EXPR: u8 = 89;

pub const RANGE_EXPR: u8 = 90;

pub const CALL_EXPR: u8 = 91;

pub const ARG_LIST: u8 = 92;

pub const INDEX_EXPR: u8 = 93;

pub const METHOD_CALL_EXPR: u8 = 94;

pub const FIELD_EXPR: u8 = 95;

pub const AWAIT_EXPR: u8 = 96;

pub const TRY_EXPR: u8 = 97;

pub const CAST_EXPR: u8 = 98;

pub const PATH_TYPE: u8 = 99;

// Steps.
pub const ENTER: u32 = 65536;

pub const TOKEN: u32 = 131072;

pub const LEAVE: u32 = 196608;

pub const FLOAT_SPLIT: u32 = 262144;

pub const FAULT: u32 = 327680;
// A token's width stands above its kind; a split that ends in a dot is marked.
pub const WIDTH_STEP: u32 = 256;

pub const ENDS_IN_DOT: u32 = 1;

// Error codes, 1 to 7.
pub const EXPECTED_EXPRESSION: u8 = 1;

pub const EXPECTED_METHOD_NAME: u8 = 2;

pub const EXPECTED_FIELD: u8 = 3;

pub const EXPECTED_TYPE: u8 = 4;

pub const EXPECTED_R_PAREN: u8 = 5;

pub const EXPECTED_R_BRACK: u8 = 6;

pub const EXPECTED_COMMA: u8 = 7;

// Refusals, 1 to 10.
pub const BAD_KIND: u8 = 1;

pub const BAD_JOINT: u8 = 2;

pub const BAD_LENGTH: u8 = 3;

pub const EVENTS_FULL: u8 = 4;

pub const STEPS_FULL: u8 = 5;

pub const TOO_DEEP: u8 = 6;

pub const OUTSIDE_CUT: u8 = 7;

pub const UNFIT: u8 = 8;

pub const UNSOUND: u8 = 9;

pub const BROKEN_FORM: u8 = 10;
