// Bytes are gathered into lines, and each line is counted.
use crate::case::agrees;
use crate::counts::Tally;
use std::io;

// The largest table, list and sheet take about 6,100 bytes in one line.
const LINE_ROOM: usize = 8192;

#[derive(Drop)]
pub struct Lines<'a, P> {
    rt: &'a P,
    tally: Tally,
    line: [u8; LINE_ROOM],
    // Of the line that is being gathered; more than its room, where it does not fit.
    length: usize,
}

impl<'a, P: Print> Lines<'a, P> {
    pub fn new(rt: &'a P) -> Lines<'a, P> {
        Lines {
            rt,
            tally: Tally::default(),
            line: [0; LINE_ROOM],
            length: 0,
        }
    }

    pub fn take(&mut self, piece: &[u8]) -> io::Result<()> {
        for b in piece {
            if *b == b'\n' {
                self.end_line()?;
            } else {
                self.keep(*b);
            }
        }
        Ok(())
    }

    // The last line may lack its end.
    pub fn finish(mut self) -> io::Result<Tally> {
        if self.length > 0 {
            self.end_line()?;
        }
        Ok(self.tally)
    }

    // A byte past the room is dropped.
    fn keep(&mut self, b: u8) {
        if let Some(place) = self.line.get_mut(self.length) {
            *place = b;
        }
        self.length = self.length.saturating_add(1);
    }

    // An empty line or a comment is no case. A line that does not fit is a case that disagrees.
    fn end_line(&mut self) -> io::Result<()> {
        let agrees = match self.line.get(..self.length) {
            Some([] | [b'#', ..]) => None,
            Some(case) => Some(agrees(case)),
            None => Some(false),
        };
        self.length = 0;
        self.tally.count(agrees);
        if agrees == Some(false) {
            println!(self.rt; "case {} disagrees", self.tally.lines)?;
        }
        Ok(())
    }
}
