// The operations of mir.rs, in its order, their numbers, and which of them sheets and listings take: an operation's number is its
// position, from 0.
ghost use Rattle.std.specs.Prelude.{◌≡◌, ℕ, Bool, List};
ghost use Rattle.mir.specs.Operation.{uni_number, bin_number, arith_number, fused_number, uni_ops, bin_ops, arith_ops, fused_ops, taken};
ghost use Rattle.mir.specs.Takes.{takes_uni, takes_bin, takes_arith, takes_fused};
ghost use Rattle.mir.specs.Refusal.{as_read};

use super::refusal::Refusal;

#[derive(Clone, Copy)]
pub enum UniOp {
    Neg,
    Not,
    Abs,
    Root,
    RealRoot,
    Recip,
    Round,
    Floor,
    Ceiling,
    Trunc,
    Real,
    Imaginary,
    Conjugate,
    Half,
    IsZero,
    IsNotZero,
    Sign,
    Abs2,
    TimesI,
    TimesNegI,
}

#[derive(Clone, Copy)]
pub enum BinOp {
    Plus,
    Minus,
    Times,
    Divide,
    GreaterThan,
    GreaterThanEqual,
    LittleThan,
    LittleThanEqual,
    Equal,
    NotEqual,
    And,
    AndNot,
    Or,
    Xor,
    Complex,
}

#[derive(Clone, Copy)]
pub enum ArithOp {
    Plus,
    Minus,
    Times,
    Divide,
}

#[derive(Clone, Copy)]
pub enum FusedOp {
    MulAdd,
    MulSub,
    NegMulAdd,
    NegMulSub,
}

// The operations by number.
static UNI: [UniOp; 20] = [
    UniOp::Neg,
    UniOp::Not,
    UniOp::Abs,
    UniOp::Root,
    UniOp::RealRoot,
    UniOp::Recip,
    UniOp::Round,
    UniOp::Floor,
    UniOp::Ceiling,
    UniOp::Trunc,
    UniOp::Real,
    UniOp::Imaginary,
    UniOp::Conjugate,
    UniOp::Half,
    UniOp::IsZero,
    UniOp::IsNotZero,
    UniOp::Sign,
    UniOp::Abs2,
    UniOp::TimesI,
    UniOp::TimesNegI,
];

static BIN: [BinOp; 15] = [
    BinOp::Plus,
    BinOp::Minus,
    BinOp::Times,
    BinOp::Divide,
    BinOp::GreaterThan,
    BinOp::GreaterThanEqual,
    BinOp::LittleThan,
    BinOp::LittleThanEqual,
    BinOp::Equal,
    BinOp::NotEqual,
    BinOp::And,
    BinOp::AndNot,
    BinOp::Or,
    BinOp::Xor,
    BinOp::Complex,
];

static ARITH: [ArithOp; 4] = [
    ArithOp::Plus,
    ArithOp::Minus,
    ArithOp::Times,
    ArithOp::Divide,
];

static FUSED: [FusedOp; 4] = [
    FusedOp::MulAdd,
    FusedOp::MulSub,
    FusedOp::NegMulAdd,
    FusedOp::NegMulSub,
];

// The operations of an enum: what is said of each of them once.
pub trait Operation: Copy + 'static {
    // The numbers, the operations in their order, and those that a listing (true) or a sheet (false) takes.
    ghost number: { Self → ℕ };

    ghost ops: { List Self };

    ghost takes: { Bool → Self → Bool };

    // The operation's number.
    fn number(self) -> u8
        ensures { result ≡ number self };

    // The operations by number.
    fn all() -> &'static [Self]
        ensures { result.now ≡ ops };

    // Whether a listing, or a sheet, takes it.
    fn is_taken(self, in_listing: bool) -> bool
        ensures { result ≡ takes in_listing self };
}

// The operation of a number, where a listing, or a sheet, takes it.
pub fn read_operation<O: Operation>(n: u8, in_listing: bool) -> Result<O, Refusal>
    ensures { as_read result ≡ taken (O.takes in_listing) O.ops n }
{
    match O::all().get(n as usize) {
        Some(op) if op.is_taken(in_listing) => Ok(*op),
        _ => Err(Refusal::UnknownWork),
    }
}

impl Operation for UniOp {
    ghost number = { uni_number };

    ghost ops = { uni_ops };

    ghost takes = { takes_uni };

    fn number(self) -> u8 {
        self as u8
    }

    #[tactic(auto, unfolding(crate::specs::Operation::uni_ops))]
    fn all() -> &'static [UniOp] {
        &UNI
    }

    fn is_taken(self, in_listing: bool) -> bool {
        match self {
            UniOp::RealRoot
            | UniOp::Real
            | UniOp::Imaginary
            | UniOp::Conjugate
            | UniOp::IsNotZero
            | UniOp::Abs2
            | UniOp::TimesI
            | UniOp::TimesNegI => !in_listing,
            _ => true,
        }
    }
}

impl Operation for BinOp {
    ghost number = { bin_number };

    ghost ops = { bin_ops };

    ghost takes = { takes_bin };

    fn number(self) -> u8 {
        self as u8
    }

    #[tactic(auto, unfolding(crate::specs::Operation::bin_ops))]
    fn all() -> &'static [BinOp] {
        &BIN
    }

    fn is_taken(self, in_listing: bool) -> bool {
        match self {
            BinOp::AndNot => false,
            BinOp::Complex => !in_listing,
            _ => true,
        }
    }
}

impl Operation for ArithOp {
    ghost number = { arith_number };

    ghost ops = { arith_ops };

    ghost takes = { λ _. takes_arith };

    fn number(self) -> u8 {
        self as u8
    }

    #[tactic(auto, unfolding(crate::specs::Operation::arith_ops))]
    fn all() -> &'static [ArithOp] {
        &ARITH
    }

    fn is_taken(self, _in_listing: bool) -> bool {
        true
    }
}

impl Operation for FusedOp {
    ghost number = { fused_number };

    ghost ops = { fused_ops };

    ghost takes = { takes_fused };

    fn number(self) -> u8 {
        self as u8
    }

    #[tactic(auto, unfolding(crate::specs::Operation::fused_ops))]
    fn all() -> &'static [FusedOp] {
        &FUSED
    }

    fn is_taken(self, in_listing: bool) -> bool {
        match self {
            FusedOp::MulAdd => true,
            _ => !in_listing,
        }
    }
}
