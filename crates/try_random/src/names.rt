//! The declarations of a random source, and which names its bodies may use.

use plant_types::Kind;

/// A block that a body calls: its instance, and its inputs and outputs with their kinds.
#[derive(Clone, Copy, Drop)]
pub struct Called {
    pub name: &'static str,
    pub inputs: &'static [(&'static str, Kind)],
    pub outputs: &'static [(&'static str, Kind)],
}

/// An array. Each group of globals has one of the name, and so has each body of its own.
#[derive(Clone, Copy, Drop)]
pub struct Row {
    pub name: &'static str,
    /// Indices, of which nearly all are within its bounds.
    pub inside: &'static [&'static str],
    /// Indices that are just outside of them.
    pub outside: &'static [&'static str],
    /// What makes of a number before it an index within them.
    pub rest: &'static str,
}

/// A program or a block type. Of the names that begin with `g` a body has those of the groups that it uses.
#[derive(Clone, Copy, Drop)]
pub struct Routine {
    /// Its declarations; of a block type, its name before them.
    pub head: &'static str,
    pub end: &'static str,
    /// What may be read, by kind.
    pub dints: &'static [&'static str],
    pub bools: &'static [&'static str],
    pub times: &'static [&'static str],
    /// The blocks that it calls.
    pub called: &'static [Called],
    /// How deep its statements are nested, and how many stand in a list.
    pub depth: u32,
    pub length: u32,
}

/// The globals: three inputs, and six groups of three variables and four arrays, of which a group's number is the end of each name. The variables of two groups have initial values.
pub const GLOBALS: &str = "VAR_GLOBAL
  di AT %ID0 : DINT; bi AT %IX0.0 : BOOL; ti AT %IL0 : TIME;
  gx0 AT %QD0 : DINT; gp0 AT %QX0.0 : BOOL; gu0 AT %QL0 : TIME;
  gx1 AT %QD1 : DINT := 4; gp1 AT %QX0.1 : BOOL := TRUE; gu1 AT %QL1 : TIME := T#1s;
  gx2 : DINT; gp2 : BOOL; gu2 : TIME;
  gx3 : DINT := -2; gp3 : BOOL := TRUE; gu3 : TIME := T#500ms;
  gx4 : DINT; gp4 : BOOL; gu4 : TIME;
  gx5 : DINT; gp5 : BOOL; gu5 : TIME;
  gnums0 : ARRAY[-1..4] OF DINT; gfar0 : ARRAY[2147483646..2147483647] OF DINT; gbits0 : ARRAY[0..2] OF BOOL; gtimes0 : ARRAY[1..1] OF TIME;
  gnums1 : ARRAY[-1..4] OF DINT; gfar1 : ARRAY[2147483646..2147483647] OF DINT; gbits1 : ARRAY[0..2] OF BOOL; gtimes1 : ARRAY[1..1] OF TIME;
  gnums2 : ARRAY[-1..4] OF DINT; gfar2 : ARRAY[2147483646..2147483647] OF DINT; gbits2 : ARRAY[0..2] OF BOOL; gtimes2 : ARRAY[1..1] OF TIME;
  gnums3 : ARRAY[-1..4] OF DINT; gfar3 : ARRAY[2147483646..2147483647] OF DINT; gbits3 : ARRAY[0..2] OF BOOL; gtimes3 : ARRAY[1..1] OF TIME;
  gnums4 : ARRAY[-1..4] OF DINT; gfar4 : ARRAY[2147483646..2147483647] OF DINT; gbits4 : ARRAY[0..2] OF BOOL; gtimes4 : ARRAY[1..1] OF TIME;
  gnums5 : ARRAY[-1..4] OF DINT; gfar5 : ARRAY[2147483646..2147483647] OF DINT; gbits5 : ARRAY[0..2] OF BOOL; gtimes5 : ARRAY[1..1] OF TIME;
END_VAR
";

/// The groups of globals, and a few times none.
pub const GROUPS: &[&str] = &["0", "1", "2", "3", "4", "5", "", ""];

/// The variables that may be assigned anywhere; of a group's globals, those of one group.
pub const DINTS: &[&str] = &["x", "y", "gx"];

pub const BOOLS: &[&str] = &["p", "q", "gp"];

pub const TIMES: &[&str] = &["u", "v", "gu"];

/// The array that most indices are fit for: those that loops count through.
pub const NUMS: Row = Row {
    name: "gnums",
    inside: &["-1", "0", "1", "2", "3", "4", "16#2", "i1", "i2"],
    outside: &["-2", "5"],
    rest: " MOD 3 + 1",
};

/// An array whose last index is the last number of a DINT.
const FAR: Row = Row {
    name: "gfar",
    inside: &["2147483646", "2147483647", "DINT#16#7FFFFFFF"],
    outside: &["2147483645", "-2147483648"],
    rest: " MOD 1 + 2147483646",
};

const BITS: Row = Row {
    name: "gbits",
    inside: &["0", "1", "2", "2 - 1"],
    outside: &["-1", "3"],
    rest: " MOD 2 + 1",
};

const SPANS: Row = Row {
    name: "gtimes",
    inside: &["1", "1", "2#1"],
    outside: &["0", "2"],
    rest: " MOD 1 + 1",
};

/// The arrays, by kind.
pub const DINT_ROWS: &[Row] = &[NUMS, NUMS, NUMS, FAR];

pub const BOOL_ROWS: &[Row] = &[BITS];

pub const TIME_ROWS: &[Row] = &[SPANS];

const TON: Called = Called {
    name: "on",
    inputs: &[("IN", Kind::Bool), ("PT", Kind::Time)],
    outputs: &[("Q", Kind::Bool), ("ET", Kind::Time)],
};

const TOF: Called = Called {
    name: "off",
    inputs: &[("IN", Kind::Bool), ("PT", Kind::Time)],
    outputs: &[("Q", Kind::Bool), ("ET", Kind::Time)],
};

const EDGE: Called = Called {
    name: "edge",
    inputs: &[("CLK", Kind::Bool)],
    outputs: &[("Q", Kind::Bool)],
};

const INNER: Called = Called {
    name: "inner",
    inputs: &[("n", Kind::Dint), ("c", Kind::Bool), ("w", Kind::Time)],
    outputs: &[("m", Kind::Dint), ("d", Kind::Bool), ("e", Kind::Time)],
};

const OUTER: Called = Called {
    name: "outer",
    inputs: &[("n", Kind::Dint), ("c", Kind::Bool), ("w", Kind::Time)],
    outputs: &[("m", Kind::Dint), ("d", Kind::Bool), ("e", Kind::Time)],
};

/// The block type that calls standard blocks alone.
const LOW: Routine = Routine {
    head: "FUNCTION_BLOCK Low
VAR_INPUT n : DINT; c : BOOL := TRUE; w : TIME; END_VAR
VAR_OUTPUT m : DINT := 3; d : BOOL; e : TIME; END_VAR
VAR x, y, i1, i2 : DINT; p, q : BOOL; u, v : TIME; on : TON; edge : R_TRIG;
nums : ARRAY[-1..4] OF DINT; far : ARRAY[2147483646..2147483647] OF DINT; bits : ARRAY[0..2] OF BOOL; times : ARRAY[1..1] OF TIME; END_VAR
",
    end: "m := x; d := p; END_FUNCTION_BLOCK
",
    dints: &["x", "y", "gx", "di", "n", "m", "i1", "i2"],
    bools: &["p", "q", "gp", "bi", "c", "d", "on.Q", "edge.Q"],
    times: &["u", "v", "gu", "ti", "w", "e", "on.ET"],
    called: &[TON, EDGE],
    depth: 2,
    length: 2,
};

/// The block type that calls it.
const HIGH: Routine = Routine {
    head: "FUNCTION_BLOCK High
VAR_INPUT n : DINT; c : BOOL; w : TIME := T#2s; END_VAR
VAR_OUTPUT m : DINT; d : BOOL := TRUE; e : TIME; END_VAR
VAR x, y, i1, i2 : DINT; p, q : BOOL; u, v : TIME; off : TOF; inner : Low;
nums : ARRAY[-1..4] OF DINT; far : ARRAY[2147483646..2147483647] OF DINT; bits : ARRAY[0..2] OF BOOL; times : ARRAY[1..1] OF TIME; END_VAR
",
    end: "m := y; e := u; END_FUNCTION_BLOCK
",
    dints: &["x", "y", "gx", "di", "n", "m", "i1", "i2", "inner.m"],
    bools: &["p", "q", "gp", "bi", "c", "d", "off.Q", "inner.d"],
    times: &["u", "v", "gu", "ti", "w", "e", "off.ET", "inner.e"],
    called: &[TOF, INNER],
    depth: 2,
    length: 2,
};

/// The block types.
pub const BLOCKS: [Routine; 2] = [LOW, HIGH];

const FIRST: Routine = Routine {
    head: "
VAR x : DINT := 5; y, i1, i2, i3 : DINT; p, q : BOOL; u, v : TIME; inner : Low; outer : High; on : TON; edge : R_TRIG;
nums : ARRAY[-1..4] OF DINT; far : ARRAY[2147483646..2147483647] OF DINT; bits : ARRAY[0..2] OF BOOL; times : ARRAY[1..1] OF TIME; END_VAR
",
    end: "END_PROGRAM
",
    dints: &["x", "y", "gx", "di", "i1", "i2", "i3", "inner.m", "outer.m"],
    bools: &["p", "q", "gp", "bi", "inner.d", "outer.d", "on.Q", "edge.Q"],
    times: &["u", "v", "gu", "ti", "inner.e", "outer.e", "on.ET"],
    called: &[INNER, OUTER, TON, EDGE],
    depth: 3,
    length: 3,
};

const SECOND: Routine = Routine {
    head: "
VAR x, y, i1, i2, i3 : DINT; p : BOOL := TRUE; q : BOOL; u, v : TIME := T#1m; outer : High; off : TOF;
nums : ARRAY[-1..4] OF DINT; far : ARRAY[2147483646..2147483647] OF DINT; bits : ARRAY[0..2] OF BOOL; times : ARRAY[1..1] OF TIME; END_VAR
",
    end: "END_PROGRAM
",
    dints: &["x", "y", "gx", "di", "i1", "i2", "i3", "outer.m"],
    bools: &["p", "q", "gp", "bi", "outer.d", "off.Q"],
    times: &["u", "v", "gu", "ti", "outer.e", "off.ET"],
    called: &[OUTER, TOF],
    depth: 3,
    length: 3,
};

/// The program that calls standard blocks alone.
pub const THIRD: Routine = Routine {
    head: "
VAR_EXTERNAL gnums0 : ARRAY[-1..4] OF DINT; gx0 : DINT; END_VAR
VAR x, y : DINT := 2; i1, i2, i3 : DINT; p, q : BOOL; u, v : TIME; on : TON; off : TOF; edge : R_TRIG;
nums : ARRAY[-1..4] OF DINT; far : ARRAY[2147483646..2147483647] OF DINT; bits : ARRAY[0..2] OF BOOL; times : ARRAY[1..1] OF TIME; END_VAR
",
    end: "END_PROGRAM
",
    dints: &["x", "y", "gx", "gx", "di", "i1", "i2", "i3"],
    bools: &["p", "q", "gp", "gp", "bi", "on.Q", "off.Q", "edge.Q"],
    times: &["u", "v", "gu", "gu", "ti", "on.ET", "off.ET"],
    called: &[TON, TOF, EDGE],
    depth: 3,
    length: 3,
};

/// The programs without their names.
pub const PROGRAMS: &[Routine] = &[FIRST, SECOND, THIRD, THIRD];

/// How each program begins.
pub const NAMES: &[&str] = &[
    "PROGRAM P1",
    "PROGRAM P2",
    "PROGRAM P3",
    "PROGRAM P4",
    "PROGRAM P5",
    "PROGRAM P6",
    "PROGRAM P7",
    "PROGRAM P8",
    "PROGRAM P9",
    "PROGRAM P10",
    "PROGRAM P11",
    "PROGRAM P12",
];
