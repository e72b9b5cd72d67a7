// Why a sheet, a listing, a start record or two inputs are refused.
ghost use Rattle.std.specs.Prelude.{◌≡◌};
ghost use Rattle.mir.specs.Refusal as Refused;

// Each is numbered as the table numbers it; 0 stands for no refusal.
#[derive(Clone, Copy, PartialEq, Eq, Debug)]
pub enum Refusal {
    TornRecord = 1,
    UnknownWork = 2,
    BadRegister = 3,
    BadPlace = 4,
    MissingConstant = 5,
    BarredOperand = 6,
    ListingFull = 7,
    WrongSetup = 8,
    StrayJump = 9,
    MisplacedLabel = 10,
    UnequalRecords = 11,
    SheetTooLong = 14,
}

impl Refusal {
    // The number that the programs print and that C is given.
    pub fn number(self) -> u8
        ensures { result ≡ Refused.number self }
    {
        self as u8
    }
}
