// UTF-8 by RFC 3629, and Unicode's White_Space. Defined in specs/Chars.antt and specs/WhiteSpace.antt; specs/Lists.antt has the words on
// lists that all crates use.

#![tactic(auto)]

pub mod chars;
pub mod edges;
pub mod white_space;
