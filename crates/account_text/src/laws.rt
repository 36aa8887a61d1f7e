//! What is promised of all accounts.
ghost use Rattle.account_text.specs.Account.{AccountsAreOne};

/// The scripts, the slots, the history and the replies determine an account.
pub fn accounts_are_one()
    ensures { AccountsAreOne }
{}
