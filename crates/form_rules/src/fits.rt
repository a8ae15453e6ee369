// What each instruction takes and gives, and what its operands mean.
ghost use Rattle.std.specs.Prelude.{◌≡◌, ◌<◌};
ghost use Rattle.definition.specs.Form.{fit_of};

// By the place in Op, in decimal digits: the least and the most taken (1 and 2 digits), the least and the most given (1 and 1), the meaning
// of the operands (2).
const FITS: [u32; 66] = [
    0_64_1_4_01, // Const
    0_64_1_4_02, // GetLocal
    1_64_0_4_02, // SetLocal
    0_64_1_4_03, // GetData
    1_64_0_4_03, // SetData
    1_64_1_4_04, // GetDataIndexed
    1_64_0_4_04, // SetDataIndexed
    1_64_0_4_00, // BoundsCheck
    0_64_1_4_00, // Add
    0_64_1_4_00, // Sub
    0_64_1_4_00, // Mul
    0_64_3_3_00, // Div
    0_64_3_3_00, // Mod
    0_64_1_4_00, // Neg
    2_64_1_4_00, // CmpEq
    2_64_1_4_00, // CmpNe
    2_64_1_4_00, // CmpLt
    2_64_1_4_00, // CmpGt
    2_64_1_4_00, // CmpLe
    2_64_1_4_00, // CmpGe
    1_64_1_4_00, // Not
    1_01_0_4_05, // If
    0_64_0_4_05, // Else
    0_64_0_4_00, // EndIf
    0_64_0_4_05, // Loop
    0_64_0_4_05, // EndLoop
    0_64_0_4_05, // Break
    1_01_0_4_05, // BreakIf
    0_64_0_4_00, // Stream
    0_64_0_4_00, // Reset
    0_64_1_4_06, // Call
    0_64_0_4_00, // Return
    1_64_1_4_00, // Yield
    1_64_0_4_00, // Dup
    0_64_1_4_07, // NewComposite
    1_64_1_4_08, // GetField
    2_64_1_4_08, // GetIndex
    1_64_1_4_08, // GetTupleField
    1_64_1_4_08, // GetEnumField
    0_64_0_4_00, // Len
    1_01_2_2_00, // IsEnum
    1_01_2_2_00, // IsStruct
    1_64_1_4_00, // IntToFloat
    1_64_1_4_00, // FloatToInt
    1_64_1_4_00, // WordToByte
    1_64_1_4_00, // ByteToWord
    1_64_1_4_00, // WordToFixed
    1_64_1_4_00, // FixedToWord
    1_64_1_4_00, // FixedMul
    1_64_3_3_00, // FixedDiv
    0_64_0_4_00, // Trap
    0_64_3_3_00, // CheckedAdd
    0_64_3_3_00, // CheckedSub
    0_64_3_3_00, // CheckedMul
    0_64_3_3_00, // CheckedNeg
    0_64_3_3_00, // CheckedDiv
    0_64_3_3_00, // CheckedMod
    0_64_1_4_09, // PushImmediate
    0_64_0_4_00, // PopN
    1_64_1_4_00, // BitAnd
    1_64_1_4_00, // BitOr
    1_64_1_4_00, // BitXor
    2_64_1_4_00, // Shl
    2_64_1_4_00, // Shr
    0_64_1_4_10, // CallVerifiedNative
    0_64_1_4_10, // CallExternalNative
];

pub fn taken_least(op: usize) -> u8
    requires { op < 66 }
    ensures { result ≡ (fit_of op).taken_least }
{
    (FITS[op] / 1_000_000 % 10) as u8
}

pub fn taken_most(op: usize) -> u8
    requires { op < 66 }
    ensures { result ≡ (fit_of op).taken_most }
{
    (FITS[op] / 10_000 % 100) as u8
}

pub fn given_least(op: usize) -> u8
    requires { op < 66 }
    ensures { result ≡ (fit_of op).given_least }
{
    (FITS[op] / 1_000 % 10) as u8
}

pub fn given_most(op: usize) -> u8
    requires { op < 66 }
    ensures { result ≡ (fit_of op).given_most }
{
    (FITS[op] / 100 % 10) as u8
}

pub fn meaning(op: usize) -> u8
    requires { op < 66 }
    ensures { result ≡ (fit_of op).meaning }
{
    (FITS[op] % 100) as u8
}
