//! Numbers of the tags of nodes.

pub const PRESENT: u8 = 0;

pub const SOURCE_NAME: u8 = 12;

pub const UNNAMED_TYPE_NAME: u8 = 24;

pub const CLOSURE_TYPE_NAME: u8 = 52;

pub const EXPRESSION_FUNCTION_PARAM: u8 = 118;

pub const EXPRESSION_PRIMARY: u8 = 130;

pub const EXPR_PRIMARY_EXTERNAL: u8 = 144;
