// What a message or a stamp does to its exchange (document 01, 'What each event does'): the exchange as it becomes, or None
// where it stays. A time is stored once; who may store one is for the handlers to say. Each message and each stamp has a function of
// its own, since each asks and stores something else.
#![tactic(auto)]

pub mod peer;
pub mod two_way;
