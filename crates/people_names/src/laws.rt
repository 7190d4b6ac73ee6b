//! Laws over the definitions of the contracts. The functions do nothing: each proves its contract.

ghost use Rattle.std.specs.Prelude.{◌≡◌};
ghost use Rattle.people_names.specs.declared.names.TheConstants.{LONGEST_NAME, LAST_PRINTED_DEADLINE};
ghost use Rattle.people_names.specs.Laws.{NoNamesLeaveNumbers};

/// Without names each job, machine and moment is printed by its number, and each budget and deadline is printed.
pub fn no_names_leave_numbers()
    ensures { NoNamesLeaveNumbers }
{}

/// The most bytes of a name, and the last deadline that is printed for people, each as a number.
pub fn the_limits_of_names_in_numbers()
    ensures name { LONGEST_NAME ≡ 40 }
    ensures deadline { LAST_PRINTED_DEADLINE ≡ 500_000_000_000 }
{}
