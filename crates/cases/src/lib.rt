// The case of an answer (document 01, "What can come back"): "The answer says which case it is; the number is only for printing." An answer is a `Result`, and
// its `Err` a refusal; what every refusal has is the trait `Case`.
#![tactic(auto)]

ghost use Rattle.std.specs.Prelude.{◌≡◌, ℕ};
ghost use Rattle.cases.specs.Case.{number_of};

// A refusal, which has the number of its case.
pub trait Case: Copy {
    ghost numbered: { Self → ℕ };

    fn number(self) -> u8
        ensures { result ≡ numbered self };

    // "so no refusal is read as success": 0 is Done, and no refusal has it.
    ghost never_done: { (case : Self) → numbered case ≡ 0 → ⊥ };
}

// The number of an answer, for printing: 0, Done, or that of its refusal.
pub fn number<T: Copy, E: Case>(answer: Result<T, E>) -> u8
    ensures { result ≡ number_of E.numbered answer }
{
    match answer {
        Ok(_) => 0,
        Err(refusal) => refusal.number(),
    }
}
