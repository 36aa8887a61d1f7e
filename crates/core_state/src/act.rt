//! The steps.

use prcu_marks::Side;

/// A word of a slot that calls load or fill.
#[derive(Clone, Copy)]
pub enum Part {
    /// Twice the generation, and one more where the node is marked.
    Life,
    Key,
    Value,
    /// The slot below a side.
    Link { side: Side },
    /// How often the side became empty.
    Tag { side: Side },
}

/// A step, by what it does, with the numbers that it is made with. Nothing reads it when the program runs. Each name here has a call of the
/// same name in `seat_table::steps`; by its K-number (`Kind`) it is noted in a trail.
#[derive(Clone, Copy)]
pub enum Act {
    /// K3. The clock is loaded, for the section that is entered next.
    LoadClock,
    /// K4. The own key word is stored.
    AnnounceKey {
        key: u64,
    },
    /// K5. The own stamp is stored: a section is entered.
    EnterByStamp {
        key: u64,
        stamp: u64,
    },
    /// K6. The own stamp becomes idle: the section is left.
    LeaveByStamp,
    /// K7. The clock is one more: a wait begins.
    BeginWait {
        low: u64,
        high: u64,
    },
    /// K8. A place's key is loaded by a waiter.
    LookKey {
        place: u32,
        last: bool,
    },
    /// K8. A place's stamp is loaded by a waiter.
    LookStamp {
        place: u32,
        last: bool,
    },
    /// K9. The life of the slot in hand or the spare is loaded.
    LoadOwnLife {
        slot: u32,
    },
    /// K9. The life of the slot in hand is loaded, which becomes the spare.
    KeepAsSpare {
        slot: u32,
    },
    /// K9. The life of a retired slot is loaded.
    LoadRetiredLife {
        slot: u32,
    },
    /// K10. The free count is exchanged for one less.
    Reserve {
        expected: u64,
    },
    /// K11. A state is exchanged from 0 to 1.
    Seize {
        slot: u32,
    },
    /// K12. A key, a value or a link of the slot in hand or the spare is stored.
    Fill {
        slot: u32,
        part: Part,
        number: u64,
    },
    /// K12. The life of the slot in hand is raised.
    RaiseInHand {
        slot: u32,
        number: u64,
    },
    /// K12. The life of a retired slot is raised, which becomes the spare.
    RaiseToSpare {
        slot: u32,
        number: u64,
    },
    /// K12. The life of a retired slot is raised, which comes into the hand.
    RaiseToHand {
        slot: u32,
        number: u64,
    },
    /// K12. The life of a retired slot is raised, where the place has a spare.
    RaiseRetired {
        slot: u32,
        number: u64,
    },
    /// K13. A lock is exchanged from 0 to the place plus 1.
    Lock {
        slot: u32,
    },
    /// K14. A lock is given up.
    Unlock {
        slot: u32,
    },
    /// K15. The slot in hand is freed.
    FreeInHand {
        slot: u32,
    },
    /// K15. A retired slot is freed.
    FreeRetired {
        slot: u32,
    },
    /// K16. The free count is one more.
    CountFree,
    /// K17. A word of a slot is loaded by a search.
    SearchLoad {
        slot: u32,
        part: Part,
    },
    /// K17. A word of a slot is loaded by a listing.
    ListLoad {
        slot: u32,
        part: Part,
    },
    /// K18. A word of a slot is loaded under its lock.
    LockedLoad {
        slot: u32,
        part: Part,
    },
    /// K19. The front is exchanged from an even number to the next.
    OpenCommit {
        expected: u64,
    },
    /// K20. The slot in hand is linked as a leaf.
    LinkLeaf {
        slot: u32,
        side: Side,
        leaf: u32,
        key: u64,
        value: u64,
    },
    /// K21. A marked node is bypassed.
    Bypass {
        parent: u32,
        side: Side,
        node: u32,
        child: u32,
        key: u64,
    },
    /// K22. A node is marked.
    Mark {
        slot: u32,
        life: u64,
    },
    /// K23. The tag of a side is raised.
    RaiseTag {
        slot: u32,
        side: Side,
        tag: u64,
    },
    /// K24. The front is made even again.
    CloseCommit {
        front: u64,
    },
    /// K25. The spare, a copy of the successor, is linked in a node's place.
    LinkCopy {
        parent: u32,
        side: Side,
        node: u32,
        copy: u32,
        old: u32,
        old_parent: u32,
        key: u64,
        next_key: u64,
    },
    /// K26. The old successor is unlinked from its parent's left.
    UnlinkLeft {
        parent: u32,
        old: u32,
        child: u32,
    },
    /// K27. The old successor is unlinked from the copy's right.
    UnlinkRight {
        copy: u32,
        old: u32,
        child: u32,
    },
    /// K28. A gate is loaded.
    LoadGate {
        class: u32,
    },
    /// K29. A side of a class is one more: a section is entered.
    EnterByCount {
        key: u64,
        side: u32,
    },
    /// K30. A side of a class is one less: the section is left.
    LeaveByCount {
        class: u32,
        side: u32,
    },
    /// K31. A side of a class is loaded by a waiter.
    LookCount {
        class: u32,
        side: u32,
        last: bool,
    },
    /// K32. A gate is turned.
    TurnGate {
        class: u32,
    },
    /// K33. The own stamp of a class is stored: a section is entered.
    EnterByRow {
        key: u64,
        stamp: u64,
    },
    /// K34. The own stamp of a class becomes idle: the section is left.
    LeaveByRow {
        class: u32,
    },
    /// K35. A stamp of a class is loaded by a waiter.
    LookRow {
        place: u32,
        class: u32,
        last: bool,
    },
    /// K36. A value is replaced.
    ReplaceValue {
        slot: u32,
        key: u64,
        value: u64,
    },
    /// K37. The front is loaded in a section, which is a listing from then on.
    LookAtFront,
    /// K38. A marked node and its marked child are replaced by the spare, with the child's key, and below it the slot in hand.
    Rotate {
        parent: u32,
        side: Side,
        node: u32,
        child: u32,
        top: u32,
    },
    /// K39. The front, held for a list, is given back without an update.
    GiveFrontBack {
        front: u64,
    },
    /// K41. It is stored that the pairs moved to another table. The front, held for it, stays odd for good.
    StoreMoved,
    /// K42. Whether the pairs moved is loaded.
    LoadMoved,
}
