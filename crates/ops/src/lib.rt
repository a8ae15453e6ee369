// The rule of each instruction, by its place in Op: how its outputs come about, what validation asks, how control leaves it, what it does to
// locals and facts. Each of these is a small list of cases of its own.
#![tactic(auto)]

ghost use Rattle.std.specs.Prelude.{◌≡◌, ◌<◌, ◌≤◌};
ghost use Rattle.masks.specs.Names.{BOOL, WORD};
ghost use Rattle.ops.specs.Ops.{ruled, plain, no_rule, rule_of};
ghost use Rattle.ops.specs.declared.Makes.TheVariants.{Anything, Common, Kind, Slots};
ghost use Rattle.ops.specs.declared.Others.TheVariants.{Unknowns, Words};
ghost use Rattle.ops.specs.declared.Asks.TheVariants.{First, Every, Stored};
ghost use Rattle.ops.specs.declared.Exit.TheVariants.{Next};
ghost use Rattle.ops.specs.declared.Acts.TheVariants.{Still, Stores};
ghost use Rattle.ops.specs.declared.Data.TheVariants.{NoSlot};

use masks::Mask;

// The places in Op of the instructions that code asks for by name; all others are met by their rules.
pub const IF: u8 = 21;

pub const BREAK_IF: u8 = 27;

pub const CALL: u8 = 30;

pub const YIELD: u8 = 32;

pub const IS_ENUM: u8 = 40;

pub const IS_STRUCT: u8 = 41;

// The first output.
#[derive(Clone, Copy, PartialEq, Eq)]
pub enum Makes {
    // Of any kind.
    Anything,
    // The constant, the immediate, the local that the operand names.
    Constant,
    Immediate,
    Local,
    // The first operand itself, or a value of its kinds.
    Operand,
    OperandMask,
    // What the host replies, what the callee gives back.
    Reply,
    Result,
    // The allowed kinds that all operands have in common.
    Common(Mask),
    // A value of this kind.
    Kind(Mask),
    Negation,
    // WORD, where it is common to all operands, else the first's kinds.
    OneKind,
    // What stands in the slots.
    Slots,
    Composite,
    // A field or an element.
    Part,
    NativeValue,
}

// The outputs after the first.
#[derive(Clone, Copy, PartialEq, Eq)]
pub enum Others {
    Unknowns,
    Words,
    // The kinds of the first, then words.
    Checked,
    Copies,
    // The Bool of a test for this kind.
    Tested(Mask),
    // A word, where there are two outputs.
    Status,
}

// What validation asks of the operands.
#[derive(Clone, Copy, PartialEq, Eq)]
pub enum Asks {
    Free,
    First(Mask),
    Both(Mask, Mask),
    Yielded,
    Returned,
    // Every operand within the allowed kinds that all have in common.
    Every(Mask),
    // The same, in common to the first two of them.
    Ordered,
    // Every operand of this one kind.
    Same(Mask),
    // What the slots take.
    Stored,
    // A composite of this kind, and no boxed part of it.
    PartOf(Mask),
    Never,
}

// How control leaves.
#[derive(Clone, Copy, PartialEq, Eq)]
pub enum Exit {
    Next,
    Stops,
    Jumps,
    Ifs,
    Breaks,
    Restarts,
}

// What happens to locals and facts.
#[derive(Clone, Copy, PartialEq, Eq)]
pub enum Acts {
    Still,
    SetsLocal,
    Yields,
    Calls,
    Returns,
    Resets,
    Stores,
}

// The slots that are named.
#[derive(Clone, Copy, PartialEq, Eq)]
pub enum Data {
    NoSlot,
    OneSlot,
    ManySlots,
}

#[derive(Clone, Copy, PartialEq, Eq)]
pub struct Rule {
    pub makes: Makes,
    pub others: Others,
    pub asks: Asks,
    pub exit: Exit,
    pub acts: Acts,
    pub slots: Data,
}

fn ruled(makes: Makes, others: Others, asks: Asks, exit: Exit, acts: Acts, slots: Data) -> Rule
    ensures { result ≡ ruled makes others asks exit acts slots }
{
    Rule {
        makes,
        others,
        asks,
        exit,
        acts,
        slots,
    }
}

// A rule that is no more than outputs and requirements.
fn plain(makes: Makes, others: Others, asks: Asks) -> Rule
    ensures { result ≡ plain makes others asks }
{
    ruled(makes, others, asks, Exit::Next, Acts::Still, Data::NoSlot)
}

// Outputs of the kinds that all operands have in common, which are all that is asked for.
fn every(kinds: Mask, others: Others) -> Rule
    ensures { result ≡ plain (Common kinds) others (Every kinds) }
{
    plain(Makes::Common(kinds), others, Asks::Every(kinds))
}

// A Bool out of what is compared.
fn compares(asks: Asks) -> Rule
    ensures { result ≡ plain (Kind BOOL) Unknowns asks }
{
    plain(Makes::Kind(Mask::BOOL), Others::Unknowns, asks)
}

// One kind made of another, and the outputs after it.
fn turns(from: Mask, to: Mask, others: Others) -> Rule
    ensures { result ≡ plain (Kind to) others (First from) }
{
    plain(Makes::Kind(to), others, Asks::First(from))
}

// A rule that is a way on and an act, and makes nothing of its own.
fn leaves(asks: Asks, exit: Exit, acts: Acts) -> Rule
    ensures { result ≡ ruled Anything Unknowns asks exit acts NoSlot }
{
    ruled(
        Makes::Anything,
        Others::Unknowns,
        asks,
        exit,
        acts,
        Data::NoSlot,
    )
}

// What comes back: from a callee, from the host.
fn answers(makes: Makes, asks: Asks, acts: Acts) -> Rule
    ensures { result ≡ ruled makes Unknowns asks Next acts NoSlot }
{
    ruled(
        makes,
        Others::Unknowns,
        asks,
        Exit::Next,
        acts,
        Data::NoSlot,
    )
}

fn reads(others: Others, asks: Asks, slots: Data) -> Rule
    ensures { result ≡ ruled Slots others asks Next Still slots }
{
    ruled(Makes::Slots, others, asks, Exit::Next, Acts::Still, slots)
}

fn writes(slots: Data) -> Rule
    ensures { result ≡ ruled (Kind WORD) Words Stored Next Stores slots }
{
    ruled(
        Makes::Kind(Mask::WORD),
        Others::Words,
        Asks::Stored,
        Exit::Next,
        Acts::Stores,
        slots,
    )
}

// A place that is none has no rule, as Len.
fn no_rule() -> Rule
    ensures { result ≡ no_rule }
{
    plain(Makes::Anything, Others::Unknowns, Asks::Never)
}

// The rule of the instruction at a place of Op.
pub fn rule_of(op: u8) -> Rule
    ensures { result ≡ rule_of op }
{
    if op < 11 {
        return rules_0(op);
    }
    if op < 22 {
        return rules_11(op);
    }
    if op < 33 {
        return rules_22(op);
    }
    if op < 44 {
        return rules_33(op);
    }
    if op < 55 {
        return rules_44(op);
    }
    rules_55(op)
}

// The rules of eleven places each.
fn rules_0(op: u8) -> Rule
    requires { op < 11 }
    ensures { result ≡ rule_of op }
{
    match op {
        // Const
        0 => plain(Makes::Constant, Others::Unknowns, Asks::Free),
        // GetLocal
        1 => plain(Makes::Local, Others::Unknowns, Asks::Free),
        // SetLocal
        2 => leaves(Asks::Free, Exit::Next, Acts::SetsLocal),
        // GetData
        3 => reads(Others::Unknowns, Asks::Free, Data::OneSlot),
        // SetData
        4 => writes(Data::OneSlot),
        // GetDataIndexed
        5 => reads(
            Others::Words,
            Asks::Both(Mask::WORD, Mask::FALLBACK),
            Data::ManySlots,
        ),
        // SetDataIndexed
        6 => writes(Data::ManySlots),
        // BoundsCheck
        7 => turns(Mask::WORD, Mask::WORD, Others::Words),
        // Add
        8 => every(Mask::MIXED, Others::Unknowns),
        // Sub
        9 => every(Mask::MIXED, Others::Unknowns),
        // Mul
        10 => every(Mask::MIXED, Others::Unknowns),
        _ => no_rule(),
    }
}

fn rules_11(op: u8) -> Rule
    requires { (11 ≤ op) × (op < 22) }
    ensures { result ≡ rule_of op }
{
    match op {
        // Div
        11 => every(Mask::NUMERIC, Others::Checked),
        // Mod
        12 => every(Mask::NUMERIC, Others::Checked),
        // Neg
        13 => every(Mask::MIXED, Others::Unknowns),
        // CmpEq
        14 => compares(Asks::Both(Mask::GUARDED, Mask::GUARDED)),
        // CmpNe
        15 => compares(Asks::Both(Mask::GUARDED, Mask::GUARDED)),
        // CmpLt
        16 => compares(Asks::Ordered),
        // CmpGt
        17 => compares(Asks::Ordered),
        // CmpLe
        18 => compares(Asks::Ordered),
        // CmpGe
        19 => compares(Asks::Ordered),
        // Not
        20 => plain(Makes::Negation, Others::Unknowns, Asks::First(Mask::BOOL)),
        // If
        21 => leaves(Asks::First(Mask::BOOL), Exit::Ifs, Acts::Still),
        _ => no_rule(),
    }
}

fn rules_22(op: u8) -> Rule
    requires { (22 ≤ op) × (op < 33) }
    ensures { result ≡ rule_of op }
{
    match op {
        // Else
        22 => leaves(Asks::Free, Exit::Jumps, Acts::Still),
        // EndIf
        23 => plain(Makes::Anything, Others::Unknowns, Asks::Free),
        // Loop
        24 => plain(Makes::Anything, Others::Unknowns, Asks::Free),
        // EndLoop
        25 => leaves(Asks::Free, Exit::Jumps, Acts::Still),
        // Break
        26 => leaves(Asks::Free, Exit::Jumps, Acts::Still),
        // BreakIf
        27 => leaves(Asks::First(Mask::BOOL), Exit::Breaks, Acts::Still),
        // Stream
        28 => plain(Makes::Anything, Others::Unknowns, Asks::Free),
        // Reset
        29 => leaves(Asks::Free, Exit::Restarts, Acts::Resets),
        // Call
        30 => answers(Makes::Result, Asks::Free, Acts::Calls),
        // Return
        31 => leaves(Asks::Returned, Exit::Stops, Acts::Returns),
        // Yield
        32 => answers(Makes::Reply, Asks::Yielded, Acts::Yields),
        _ => no_rule(),
    }
}

fn rules_33(op: u8) -> Rule
    requires { (33 ≤ op) × (op < 44) }
    ensures { result ≡ rule_of op }
{
    match op {
        // Dup
        33 => plain(Makes::Operand, Others::Copies, Asks::Free),
        // NewComposite
        34 => plain(Makes::Composite, Others::Unknowns, Asks::Free),
        // GetField
        35 => plain(Makes::Part, Others::Unknowns, Asks::PartOf(Mask::STRUCT)),
        // GetIndex
        36 => plain(
            Makes::Part,
            Others::Words,
            Asks::Both(Mask::ARRAY, Mask::WORD),
        ),
        // GetTupleField
        37 => plain(Makes::Part, Others::Unknowns, Asks::PartOf(Mask::TUPLE)),
        // GetEnumField
        38 => plain(Makes::Part, Others::Unknowns, Asks::PartOf(Mask::ENUM)),
        // Len
        39 => plain(Makes::Anything, Others::Unknowns, Asks::Never),
        // IsEnum
        40 => plain(Makes::Operand, Others::Tested(Mask::ENUM), Asks::Free),
        // IsStruct
        41 => plain(Makes::Operand, Others::Tested(Mask::STRUCT), Asks::Free),
        // IntToFloat
        42 => turns(Mask::WORD, Mask::FLOAT, Others::Unknowns),
        // FloatToInt
        43 => turns(Mask::FLOAT, Mask::WORD, Others::Unknowns),
        _ => no_rule(),
    }
}

fn rules_44(op: u8) -> Rule
    requires { (44 ≤ op) × (op < 55) }
    ensures { result ≡ rule_of op }
{
    match op {
        // WordToByte
        44 => turns(Mask::WORD, Mask::BYTE, Others::Unknowns),
        // ByteToWord
        45 => turns(Mask::BYTE, Mask::WORD, Others::Unknowns),
        // WordToFixed
        46 => turns(Mask::WORD, Mask::FIXED, Others::Unknowns),
        // FixedToWord
        47 => turns(Mask::FIXED, Mask::WORD, Others::Unknowns),
        // FixedMul
        48 => plain(
            Makes::Kind(Mask::FIXED),
            Others::Unknowns,
            Asks::Same(Mask::FIXED),
        ),
        // FixedDiv
        49 => plain(
            Makes::Kind(Mask::FIXED),
            Others::Checked,
            Asks::Same(Mask::FIXED),
        ),
        // Trap
        50 => leaves(Asks::Free, Exit::Stops, Acts::Still),
        // CheckedAdd
        51 => every(Mask::NUMERIC, Others::Checked),
        // CheckedSub
        52 => every(Mask::NUMERIC, Others::Checked),
        // CheckedMul
        53 => every(Mask::NUMERIC, Others::Checked),
        // CheckedNeg
        54 => every(Mask::EXACT, Others::Checked),
        _ => no_rule(),
    }
}

fn rules_55(op: u8) -> Rule
    requires { 55 ≤ op }
    ensures { result ≡ rule_of op }
{
    match op {
        // CheckedDiv
        55 => every(Mask::NUMERIC, Others::Checked),
        // CheckedMod
        56 => every(Mask::WHOLE, Others::Checked),
        // PushImmediate
        57 => plain(Makes::Immediate, Others::Unknowns, Asks::Free),
        // PopN
        58 => plain(Makes::Anything, Others::Unknowns, Asks::Free),
        // BitAnd
        59 => plain(Makes::OneKind, Others::Unknowns, Asks::Same(Mask::WORD)),
        // BitOr
        60 => plain(Makes::OneKind, Others::Unknowns, Asks::Same(Mask::WORD)),
        // BitXor
        61 => plain(Makes::OneKind, Others::Unknowns, Asks::Same(Mask::WORD)),
        // Shl
        62 => plain(
            Makes::OperandMask,
            Others::Unknowns,
            Asks::Both(Mask::WORD, Mask::WORD),
        ),
        // Shr
        63 => plain(
            Makes::OperandMask,
            Others::Unknowns,
            Asks::Both(Mask::WORD, Mask::WORD),
        ),
        // CallVerifiedNative
        64 => plain(Makes::NativeValue, Others::Status, Asks::Free),
        // CallExternalNative
        65 => plain(Makes::NativeValue, Others::Status, Asks::Free),
        _ => no_rule(),
    }
}
