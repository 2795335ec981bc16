//! The atoms that every table holds from the start: a constant for each, which is its number in every table.
//!
//! A constant has the name of its atom, in capitals, where nothing else is said.

use crate::atom_table::AtomId;

// Truth values, reasons of faults and exits, and the words of processes.
pub const TRUE: AtomId = AtomId(0);

pub const FALSE: AtomId = AtomId(1);

pub const NORMAL: AtomId = AtomId(2);

pub const KILL: AtomId = AtomId(3);

pub const KILLED: AtomId = AtomId(4);

pub const NOPROC: AtomId = AtomId(5);

pub const ERROR: AtomId = AtomId(6);

pub const EXIT: AtomId = AtomId(7);

pub const THROW: AtomId = AtomId(8);

pub const NOCATCH: AtomId = AtomId(9);

pub const FUNCTION_CLAUSE: AtomId = AtomId(10);

pub const BADMATCH: AtomId = AtomId(11);

pub const CASE_CLAUSE: AtomId = AtomId(12);

pub const IF_CLAUSE: AtomId = AtomId(13);

pub const TRY_CLAUSE: AtomId = AtomId(14);

pub const UNDEF: AtomId = AtomId(15);

pub const BADARITH: AtomId = AtomId(16);

pub const BADARG: AtomId = AtomId(17);

pub const SYSTEM_LIMIT: AtomId = AtomId(18);

pub const TIMEOUT_VALUE: AtomId = AtomId(19);

pub const INFINITY: AtomId = AtomId(20);

pub const TRAP_EXIT: AtomId = AtomId(21);

pub const ERLANG: AtomId = AtomId(22);

/// `'EXIT'`.
pub const EXIT_TAG: AtomId = AtomId(23);

// Guard BIFs.
pub const SELF: AtomId = AtomId(24);

/// `'+'`.
pub const PLUS: AtomId = AtomId(25);

/// `'-'`.
pub const MINUS: AtomId = AtomId(26);

/// `'*'`.
pub const TIMES: AtomId = AtomId(27);

pub const DIV: AtomId = AtomId(28);

pub const REM: AtomId = AtomId(29);

pub const BAND: AtomId = AtomId(30);

pub const BOR: AtomId = AtomId(31);

pub const BXOR: AtomId = AtomId(32);

pub const BSL: AtomId = AtomId(33);

pub const BSR: AtomId = AtomId(34);

pub const BNOT: AtomId = AtomId(35);

pub const ABS: AtomId = AtomId(36);

/// `'=='`.
pub const EQUAL: AtomId = AtomId(37);

/// `'/='`.
pub const NOT_EQUAL: AtomId = AtomId(38);

/// `'=:='`.
pub const EXACTLY_EQUAL: AtomId = AtomId(39);

/// `'=/='`.
pub const EXACTLY_NOT_EQUAL: AtomId = AtomId(40);

/// `'<'`.
pub const LESS: AtomId = AtomId(41);

/// `'>'`.
pub const GREATER: AtomId = AtomId(42);

/// `'=<'`.
pub const LESS_OR_EQUAL: AtomId = AtomId(43);

/// `'>='`.
pub const GREATER_OR_EQUAL: AtomId = AtomId(44);

pub const MIN: AtomId = AtomId(45);

pub const MAX: AtomId = AtomId(46);

pub const NOT: AtomId = AtomId(47);

pub const AND: AtomId = AtomId(48);

pub const OR: AtomId = AtomId(49);

pub const XOR: AtomId = AtomId(50);

pub const HD: AtomId = AtomId(51);

pub const TL: AtomId = AtomId(52);

pub const LENGTH: AtomId = AtomId(53);

pub const TUPLE_SIZE: AtomId = AtomId(54);

pub const SIZE: AtomId = AtomId(55);

pub const ELEMENT: AtomId = AtomId(56);

pub const IS_ATOM: AtomId = AtomId(57);

pub const IS_BOOLEAN: AtomId = AtomId(58);

pub const IS_INTEGER: AtomId = AtomId(59);

pub const IS_LIST: AtomId = AtomId(60);

pub const IS_NUMBER: AtomId = AtomId(61);

pub const IS_PID: AtomId = AtomId(62);

pub const IS_TUPLE: AtomId = AtomId(63);

pub const IS_FLOAT: AtomId = AtomId(64);

pub const IS_BINARY: AtomId = AtomId(65);

pub const IS_REFERENCE: AtomId = AtomId(66);

pub const IS_PORT: AtomId = AtomId(67);

// Other functions of `erlang`.
pub const SPAWN: AtomId = AtomId(68);

pub const SPAWN_LINK: AtomId = AtomId(69);

pub const LINK: AtomId = AtomId(70);

pub const UNLINK: AtomId = AtomId(71);

pub const PROCESS_FLAG: AtomId = AtomId(72);

pub const SEND: AtomId = AtomId(73);

/// `'!'`.
pub const BANG: AtomId = AtomId(74);

pub const DISPLAY: AtomId = AtomId(75);

/// `'++'`.
pub const APPEND: AtomId = AtomId(76);

pub const SETELEMENT: AtomId = AtomId(77);

pub const LIST_TO_TUPLE: AtomId = AtomId(78);

pub const TUPLE_TO_LIST: AtomId = AtomId(79);

/// The texts of the fixed atoms, in the order of their numbers.
pub(crate) static TEXTS: [&str; 80] = [
    "true",
    "false",
    "normal",
    "kill",
    "killed",
    "noproc",
    "error",
    "exit",
    "throw",
    "nocatch",
    "function_clause",
    "badmatch",
    "case_clause",
    "if_clause",
    "try_clause",
    "undef",
    "badarith",
    "badarg",
    "system_limit",
    "timeout_value",
    "infinity",
    "trap_exit",
    "erlang",
    "EXIT",
    "self",
    "+",
    "-",
    "*",
    "div",
    "rem",
    "band",
    "bor",
    "bxor",
    "bsl",
    "bsr",
    "bnot",
    "abs",
    "==",
    "/=",
    "=:=",
    "=/=",
    "<",
    ">",
    "=<",
    ">=",
    "min",
    "max",
    "not",
    "and",
    "or",
    "xor",
    "hd",
    "tl",
    "length",
    "tuple_size",
    "size",
    "element",
    "is_atom",
    "is_boolean",
    "is_integer",
    "is_list",
    "is_number",
    "is_pid",
    "is_tuple",
    "is_float",
    "is_binary",
    "is_reference",
    "is_port",
    "spawn",
    "spawn_link",
    "link",
    "unlink",
    "process_flag",
    "send",
    "!",
    "display",
    "++",
    "setelement",
    "list_to_tuple",
    "tuple_to_list",
];
