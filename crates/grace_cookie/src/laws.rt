//! How a cookie stays good beside other calls of its seat. The functions have no bodies; their promises are the laws.
ghost use Rattle.grace_cookie.specs.Cookies.{WaitsStay, CookiesStay, OthersStay, UsedStay};

/// A cookie may be asked about after each call that keeps what `KeepsLatest` says.
pub fn waits_stay()
    ensures { WaitsStay }
{}

/// And what was retired at its start may go back by it where the call keeps what `KeepsCookies` says, and of a cookie that is over what
/// `KeepsListed` says.
pub fn cookies_stay()
    ensures { CookiesStay }
{}

/// So it is after a question about another cookie of the seat.
pub fn others_stay()
    ensures { OthersStay }
{}

/// So it is of one that is over after a call that used the first listed slot again, once that slot is counted as used.
pub fn used_stay()
    ensures { UsedStay }
{}
