// What a record does (tests/CALLS.md, Records).
ghost use Rattle.std.specs.Prelude.{◌≡◌};
ghost use Rattle.call_script.specs.Kinds.{kind_of};

#[derive(Clone, Copy, Debug, PartialEq, Eq)]
pub enum Kind {
    Open,
    WriteRegister,
    ReadRegister,
    WriteSetpoint,
    Arm,
    Disarm,
    Reply,
    Retired,
    RetiredLength,
    Ticks,
    Event,
    ChangeUser,
    InterruptLevel,
    SetWord,
    Ramp,
    LastReadings,
    OpenDownload,
    Portion,
    PortionLength,
    LastTick,
    Nothing,
}

impl From<u8> for Kind {
    ghost from_gives = { λ byte kind. kind ≡ kind_of byte };

    #[tactic(auto, unfolding(crate::specs::Kinds::kind_of))]
    fn from(byte: u8) -> Kind {
        match byte {
            0 => Kind::Open,
            1 => Kind::WriteRegister,
            2 => Kind::ReadRegister,
            3 => Kind::WriteSetpoint,
            4 => Kind::Arm,
            5 => Kind::Disarm,
            6 => Kind::Reply,
            7 => Kind::Retired,
            8 => Kind::RetiredLength,
            9 => Kind::Ticks,
            10 => Kind::Event,
            11 => Kind::ChangeUser,
            12 => Kind::InterruptLevel,
            13 => Kind::SetWord,
            14 => Kind::Ramp,
            15 => Kind::LastReadings,
            16 => Kind::OpenDownload,
            17 => Kind::Portion,
            18 => Kind::PortionLength,
            19 => Kind::LastTick,
            _ => Kind::Nothing,
        }
    }
}

impl Kind {
    // Whether the call is due setpoints.
    pub fn takes_setpoints(self) -> bool {
        matches!(self, Kind::WriteSetpoint | Kind::Ticks)
    }
}
