use crate::facts::check;
use hla_base::FOREVER;
use hla_lbts::Peers;

/// What is so of the bound of three peers, two at 5 and one at 9 in a later epoch, as more is heard of them.
static BOUND: [&str; 7] = [
    "there is none of no peers",
    "is that of the least peers at first",
    "stays where one of two least peers rises",
    "stays where a peer is heard of an old epoch",
    "rises once both have risen",
    "stays where a peer would fall in its epoch",
    "falls where a peer is lowered in a new epoch",
];

#[test]
fn bounds_follow_the_least_peer(rt: HostRuntime) {
    let none = Peers::new().bound();
    let mut peers = Peers::new();
    peers.lower(3, 1, 5);
    peers.lower(7, 1, 5);
    peers.set(16, 2, 9);
    let at_first = peers.bound();
    peers.accept(3, 1, 8);
    let first = peers.bound();
    peers.accept(7, 0, 20);
    let second = peers.bound();
    peers.accept(7, 1, 20);
    let third = peers.bound();
    peers.accept(3, 1, FOREVER);
    peers.accept(16, 2, 7);
    let fourth = peers.bound();
    peers.lower(16, 3, 4);
    let facts = [
        none == FOREVER,
        at_first == 5,
        first == 5,
        second == 5,
        third == 8,
        fourth == 9,
        peers.bound() == 4,
    ];
    check(&rt, &BOUND, &facts);
}
