// The lines of the program that looks for rings.
ghost use Rattle.report.specs.Lines.{rank_line};
ghost use Rattle.std.specs.Prelude.{Some};

use std::fmt;

// The rank of a channel.
#[derive(Clone, Copy)]
pub struct RankLine {
    pub channel: usize,
    pub rank: u16,
}

impl fmt::Display for RankLine {
    ghost output = { λ x. Some (rank_line x.channel x.rank) };

    fn fmt<W: fmt::Write>(&self, f: &mut fmt::Formatter<W>) -> fmt::Result {
        let RankLine { channel, rank } = *self;
        write!(f, "rank {channel} {rank}")
    }
}
