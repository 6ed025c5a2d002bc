// What the programs print, line by line, as types that are shown: the lines of a hall that is laid, of rounds that are
// played, and of a refusal, which names the fault's number, the offset of the thing that has it, the file, and the
// cause. Each line is proved, byte by byte, to be the one that specs/ describes.
#![tactic(auto)]

mod lay;
mod lines;
mod rings;
mod run;

pub use lay::{DoorLine, EntryWord, HeadLine, LevelLine, LinkLine, RoadHead, RootLine, TableHead};
pub use lines::{Notice, Source};
pub use rings::RankLine;
pub use run::{BlockWord, CameLine, ShowLine, StoreHead, WaitingLine};
