//! What is driven by the tests of devices: inputs, with the whole answers to them.

use super::cells::{CLEANED, CROSSING, RINSED, Texts};
use shop_base::Moment;

/// What answers the lines: a cell with this plan, several, or an echo.
#[derive(Clone, Copy)]
pub(super) enum Driver {
    Cell(Texts),
    Cells(&'static [Texts]),
    Echo,
}

/// Whether all is done; of one cell also the last moment and how many reports are left.
pub(super) type End = (bool, Moment, u64);

/// How much the reader gives a call at most, how much is gathered before it is written, and whether a write that fails
/// takes nothing.
type Writer = (usize, usize, bool);

/// An input, its answers, how it ends, and the writers that fail over it. Of each line that has answers it is known how
/// many bytes of the input end it, and how many bytes are out once it is answered.
pub(super) struct Driven {
    pub(super) driver: Driver,
    pub(super) input: &'static [u8],
    pub(super) text: &'static [u8],
    pub(super) answered: &'static [(usize, usize)],
    pub(super) end: End,
    pub(super) writers: &'static [Writer],
}

/// The run in which two jobs cross on two machines, and the first operation ends early.
pub(super) const IN_TIME_LINES: &[u8] =
    b"report 0 arrive 0\norder 0 0 out 0\nreport 0 arrive 1\nreport 2 finish 0 0\norder 2 0 0 1\n\
        report 4 finish 0 1\norder 4 0 1 out\norder 4 1 out 1\nreport 8 finish 1 1\n\
        order 8 1 1 0\nreport 9 finish 1 0\norder 9 1 0 out\ndone 9\n";

pub(super) const DRIVEN: &[Driven] = &[
    Driven {
        driver: Driver::Cell(CROSSING),
        input: b"arrive 0 0\narrive 1 0\nfinish 0 0 2\nfinish 0 1 4\nfinish 1 1 8\nfinish 1 0 9\n",
        text: IN_TIME_LINES,
        answered: &[
            (11, 34),
            (22, 52),
            (35, 86),
            (48, 138),
            (61, 172),
            (74, 208),
        ],
        end: (true, 9, 0),
        writers: &[(1000, 0, false), (1000, 0, true), (1000, 1000, false)],
    },
    // Machine 1 is cleaned after each job.
    Driven {
        driver: Driver::Cell(CLEANED),
        input: b"arrive 0 0\narrive 1 0\nfinish 0 0 3\nfinish 0 1 5\nclean 1 7\nfinish 1 1 11\n\
            finish 1 0 12\nclean 1 13\n",
        text: b"report 0 arrive 0\norder 0 0 out 0\nreport 0 arrive 1\nreport 3 finish 0 0\n\
            order 3 0 0 1\nreport 5 finish 0 1\norder 5 0 1 out\nreport 7 clean 1\n\
            order 7 1 out 1\nreport 11 finish 1 1\norder 11 1 1 0\nreport 12 finish 1 0\n\
            order 12 1 0 out\nreport 13 clean 1\ndone 13\n",
        answered: &[
            (11, 34),
            (22, 52),
            (35, 86),
            (48, 122),
            (58, 155),
            (72, 191),
            (86, 229),
            (97, 247),
        ],
        end: (true, 13, 0),
        writers: &[(1000, 0, false), (1000, 0, true), (1000, 1000, false)],
    },
    // A rack comes to machine 0 again.
    Driven {
        driver: Driver::Cell(RINSED),
        input: b"arrive 0 0\narrive 1 0\nfinish 0 0 3\nfinish 0 1 5\nclean 0 9\nfinish 0 0 12\n\
            clean 0 18\nfinish 1 0 21\nclean 0 27\n",
        text: b"report 0 arrive 0\norder 0 0 out 0\nreport 0 arrive 1\nreport 3 finish 0 0\n\
            order 3 0 0 1\nreport 5 finish 0 1\nreport 9 clean 0\norder 9 0 1 0\n\
            report 12 finish 0 0\norder 12 0 0 out\nreport 18 clean 0\norder 18 1 out 0\n\
            report 21 finish 1 0\norder 21 1 0 out\nreport 27 clean 0\ndone 27\n",
        answered: &[
            (11, 34),
            (22, 52),
            (35, 86),
            (48, 106),
            (58, 137),
            (72, 175),
            (83, 210),
            (97, 248),
            (108, 266),
        ],
        end: (true, 27, 0),
        writers: &[],
    },
    // The run is left.
    Driven {
        driver: Driver::Cell(CROSSING),
        input: b"arrive 0 7\narrive 1 7\n",
        text: b"report 7 arrive 0\nlate 7\norder 7 0 out 0\nreport 7 arrive 1\nlate 7\nunfinished 4\n",
        answered: &[(11, 41), (22, 66)],
        end: (false, 7, 4),
        writers: &[],
    },
    // Each report of a run on cell 0 and then on cell 1, and one on a cell that isn't there.
    Driven {
        driver: Driver::Cells(&[CROSSING, CROSSING]),
        input: b"0 arrive 0 0\n1 arrive 0 0\n0 arrive 1 0\n1 arrive 1 0\n0 finish 0 0 2\n\
            1 finish 0 0 2\n0 finish 0 1 4\n1 finish 0 1 4\n0 finish 1 1 8\n1 finish 1 1 8\n\
            0 finish 1 0 9\n1 finish 1 0 9\n7 arrive 0 0\n",
        text: b"0 report 0 arrive 0\n0 order 0 0 out 0\n1 report 0 arrive 0\n1 order 0 0 out 0\n\
            0 report 0 arrive 1\n1 report 0 arrive 1\n0 report 2 finish 0 0\n0 order 2 0 0 1\n\
            1 report 2 finish 0 0\n1 order 2 0 0 1\n0 report 4 finish 0 1\n0 order 4 0 1 out\n\
            0 order 4 1 out 1\n1 report 4 finish 0 1\n1 order 4 0 1 out\n1 order 4 1 out 1\n\
            0 report 8 finish 1 1\n0 order 8 1 1 0\n1 report 8 finish 1 1\n1 order 8 1 1 0\n\
            0 report 9 finish 1 0\n0 order 9 1 0 out\n1 report 9 finish 1 0\n1 order 9 1 0 out\n\
            refused 13 NoSuchCell\n0 done 9\n1 done 9\n",
        answered: &[
            (13, 38),
            (26, 76),
            (39, 96),
            (52, 116),
            (67, 154),
            (82, 192),
            (97, 250),
            (112, 308),
            (127, 346),
            (142, 384),
            (157, 424),
            (172, 464),
            (185, 486),
        ],
        end: (true, 0, 0),
        writers: &[(1000, 1000, false), (1000, 1000, true)],
    },
    // Both of two cells are left.
    Driven {
        driver: Driver::Cells(&[CROSSING, CROSSING]),
        input: b"1 arrive 0 0\n",
        text: b"1 report 0 arrive 0\n1 order 0 0 out 0\n0 unfinished 6\n1 unfinished 5\n",
        answered: &[(13, 38)],
        end: (false, 0, 0),
        writers: &[],
    },
    // No cells.
    Driven {
        driver: Driver::Cells(&[]),
        input: b"",
        text: b"",
        answered: &[],
        end: (true, 0, 0),
        writers: &[],
    },
    // Carriage returns, an empty line, and a last line without a line feed.
    Driven {
        driver: Driver::Echo,
        input: b"ab\n\ncd\r\ne\r\r\nlast\r",
        text: b"1ab|3cd|4e\r|5last|.",
        answered: &[(3, 4), (8, 8), (12, 12)],
        end: (true, 0, 0),
        writers: &[(1, 0, false), (1, 0, true), (1, 3, false), (1, 1000, true)],
    },
    // A line of 63 bytes, which is accepted, and one of 64.
    Driven {
        driver: Driver::Echo,
        input: b"777777777777777777777777777777777777777777777777777777777777777\n\
            7777777777777777777777777777777777777777777777777777777777777777\n",
        text: b"1777777777777777777777777777777777777777777777777777777777777777|long|.",
        answered: &[(64, 65), (129, 70)],
        end: (true, 0, 0),
        writers: &[],
    },
];
