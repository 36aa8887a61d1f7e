//! What the invariant gives. Each is a function without a body whose promise is the law.
ghost use Rattle.core_frames.specs.Laws.{LinksAreTree, FollowIsMap, SearchesAreAnswered, SearchesStand, FewPass, RecordsSay, StampsAreOld, StoodIsYoung, EmptyIsFull, PairsFit, ListingsGoOn, FreshHolds, LocksAreOnes, SlotsAreOnes};
ghost use Rattle.core_frames.specs.Telling.{ViewsAreTold};

/// The links from the root are a tree of distinct slots in search order.
pub fn links_are_tree()
    ensures { LinksAreTree }
{}

/// A lock is held by at most one seat, and so at at most one place: its word names that place, and no other seat holds it.
pub fn locks_are_ones()
    ensures { LocksAreOnes }
{}

/// A slot that a seat has in hand, as its spare or retired is that alone. It is nobody else's, not linked and not free.
pub fn slots_are_ones()
    ensures { SlotsAreOnes }
{}

/// A search from the root answers as the dictionary now.
pub fn follow_is_map()
    ensures { FollowIsMap }
{}

/// What each open search will answer the dictionary said since it was entered.
pub fn searches_are_answered()
    ensures { SearchesAreAnswered }
{}

/// Where each open search stands, in words of its follow.
pub fn searches_stand()
    ensures { SearchesStand }
{}

/// Which readers with a key of a pending move's interval pass its old successor: those entered before its update, as long as it wasn't
/// waited for.
pub fn few_pass()
    ensures { FewPass }
{}

/// How old an unlinked slot is at which a section stood.
pub fn stood_is_young()
    ensures { StoodIsYoung }
{}

/// What a record of an empty side says.
pub fn records_say()
    ensures { RecordsSay }
{}

/// Which stamps are not above which clocks.
pub fn stamps_are_old()
    ensures { StampsAreOld }
{}

/// Where a listing's walk goes on.
pub fn listings_go_on()
    ensures { ListingsGoOn }
{}

/// Where the free count is 0 and a place has nothing reserved, in hand, owed or under way, the dictionary is large.
pub fn empty_is_full()
    ensures { EmptyIsFull }
{}

/// The dictionary is no larger than the slots.
pub fn pairs_fit()
    ensures { PairsFit }
{}

/// A table as it is made has the invariant, whatever its waiter.
pub fn fresh_holds()
    ensures { FreshHolds }
{}

/// What the invariant tells of each view that works at a place.
pub fn views_are_told()
    ensures { ViewsAreTold }
{}
