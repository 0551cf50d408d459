ghost use Rattle.std.specs.Prelude.{◌≡◌, slice_index};
ghost use Rattle.board.specs.Cases.{AddressCase, ByteCase, LineCase, WideCase, CountCase, CounterCase, OneCase, WatchdogCase, one_byte};

// The worked cases of the rules; the answer is the journal word of the first of them.
#[tactic(auto, unfolding(crate::specs::Grant::least, crate::specs::Grant::requested))]
pub fn worked_cases_stand() -> u64
    ensures address { AddressCase }
    ensures byte { ByteCase }
    ensures line { LineCase }
    ensures wide { WideCase }
    ensures count { CountCase }
    ensures counter { CounterCase }
    ensures one { OneCase }
    ensures watchdog { WatchdogCase }
    ensures word { result ≡ slice_index one_byte.journal 0 }
{
    0x1490_0001_FFFF_0041
}
