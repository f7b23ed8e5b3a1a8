//! Numbers of the tags of nodes.

pub const POINTER_TO_MEMBER_TYPE: u8 = 53;

pub const ENCODING_FUNCTION: u8 = 71;

pub const ARRAY_TYPE_DIMENSION_NUMBER: u8 = 175;

pub const ARRAY_TYPE_DIMENSION_EXPRESSION: u8 = 176;

pub const ARRAY_TYPE_NO_DIMENSION: u8 = 177;

pub const FUNCTION_TYPE: u8 = 186;

pub const TYPE_NODE_ARRAY: u8 = 189;

pub const TYPE_NODE_QUALIFIED: u8 = 195;

pub const TYPE_NODE_POINTER_TO: u8 = 197;

pub const TYPE_NODE_LVALUE_REF: u8 = 198;

pub const TYPE_NODE_RVALUE_REF: u8 = 199;

pub const WELL_KNOWN: u8 = 3;

pub const TYPE_HANDLE_BUILTIN: u8 = 25;

pub const TYPE_HANDLE_QUALIFIED_BUILTIN: u8 = 26;

pub const SUBSTITUTABLE_UNSCOPED_TEMPLATE_NAME: u8 = 205;

pub const SUBSTITUTABLE_EXPRESSION: u8 = 210;
