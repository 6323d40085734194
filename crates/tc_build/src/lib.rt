//! Guest files that are generated, not linked by a compiler.
//!
//! `build` makes the file of a guest from its code, threads, data and guards, byte for byte as
//! its contract says. Loading that file gives the described image. The header, the program
//! headers and the note are always in order, so a file is refused only for its entries or
//! guards. `generate` makes the file of one guest, as long as is asked for, which is never
//! refused.
//!
//! - `build`: the file of a described guest.
//! - `code`: code assembled from instructions. `generate`: the guest that the generator makes.
//! - `law`: the lemma about loading built files.
#![tactic(auto)]

pub mod build;
mod code;
pub mod generate;
pub mod law;
