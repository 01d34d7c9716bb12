//! Laws of the texts of histories: what is saved is read again, and is of one history only.

ghost use Rattle.std.specs.Prelude.{◌≡◌, ◌≤◌, ℕ, List, All};
ghost use Rattle.mx_machine.specs.declared.history.Record.{Record};
ghost use Rattle.mx_machine.specs.History.{IsWritable};
ghost use Rattle.mx_machine.specs.Rules.{Rules};
ghost use Rattle.mx_boot.specs.Text.{saved_text};
ghost use Rattle.mx_boot.specs.Log.{IsHistory, IsHistoryFault};

/// Law: a text is one history at most, by one of the rules, and none if it has a fault.
pub fn one_history()
    ensures one { (actors : ℕ) (t : List ℕ) (r s : Rules) (a b : List Record)
        → IsHistory actors t r a → IsHistory actors t s b → (r ≡ s) × (a ≡ b) }
    ensures no_fault { (actors n : ℕ) (t : List ℕ) (r : Rules) (a : List Record)
        → IsHistory actors t r a → IsHistoryFault actors t n → ⊥ }
{}

/// Law: what is saved of a history is read as that history, by the rules of its machine.
pub fn history_again()
    ensures { (actors : ℕ) (rules : Rules) (records : List Record) → actors ≤ 256
        → All (IsWritable actors) records
        → IsHistory actors (saved_text rules records) rules records }
{}

/// Law: what is saved of a history is saved of no other, nor by other rules.
pub fn one_text()
    ensures { (r s : Rules) (a b : List Record) → All (IsWritable 256) a → All (IsWritable 256) b
        → saved_text r a ≡ saved_text s b → (r ≡ s) × (a ≡ b) }
{
    history_again();
    one_history();
}
