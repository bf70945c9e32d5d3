//! What holds of every limiter, over any stretch of seconds. Each function does nothing: its contract is the law.

ghost use Rattle.rate_windows.specs.Laws.{AnyWindow, AnyWindowOfOwnSeconds, AnyWindowOfPolicies, AnyWindowOfBudgets, AnyWindowOfSeats};

/// In any T seconds a `bytes_limiting` policy grants at most its burst and T times its rate, and a `rate_limiting` one
/// at most its limit times T + 1, since T seconds touch so many whole ones. An asking counts in the greatest second
/// asked so far. So where no second goes back, it counts in its own.
pub fn grants_in_any_window()
    ensures counted { AnyWindow }
    ensures own { AnyWindowOfOwnSeconds }
{}

/// So it is at each limiter node of some policies, where each asking is granted as the ones before it say at its node.
pub fn policies_grant_in_any_window()
    ensures { AnyWindowOfPolicies }
{}

/// So it is at each limiter node of new [`rate_budget::Budgets`], however they are asked from then on.
pub fn budgets_grant_in_any_window()
    ensures { AnyWindowOfBudgets }
{}

/// And so it is at each node of the seats of a [`shared_budget::SharedBudget`], over all seats, in the one history that
/// its askings have.
pub fn seats_grant_in_any_window()
    ensures { AnyWindowOfSeats }
{}
