// The engine's pass, with a mark for each place.
ghost use Rattle.std.specs.Prelude.{◌≡◌, ◌<◌, true, false, IfOk, IfSome};
ghost use Rattle.dt_board.specs.Board.{is_put};
ghost use Rattle.dt_board.specs.Job.{finished};

use dt_base::NoMemory;
use dt_board::{Board, EnginePass, Job, PLACES, Taken};
use std::alloc::Global;

/// The engine's pass, and which places are put.
#[derive(Drop)]
pub(crate) struct Desk {
    pub pass: EnginePass,
    marks: [bool; 64],
    ghost same: { marks ≡ pass.puts },
}

impl Desk {
    /// A new board and its desk.
    pub fn new(alloc: Global) -> Result<(Board, Desk), NoMemory>
        ensures { IfOk result (λ made. made.1.pass.board ≡ made.0) }
    {
        let (board, pass) = Board::new(alloc)?;
        Ok((
            board,
            Desk {
                pass,
                marks: [false; 64],
            },
        ))
    }

    /// Whether a place is put.
    fn is_put(&self, place: usize) -> bool
        ensures { result ≡ is_put self.now.pass.puts place }
    {
        place < PLACES && self.marks[place]
    }

    /// Puts an open job at a free place.
    pub fn put(&mut self, board: &Board, place: usize, job: Job)
        requires board { self.old.pass.board ≡ board.now }
        requires place { place < PLACES }
        requires free { is_put self.old.pass.puts place ≡ false }
        requires open { finished job ≡ false }
        ensures { self.new.pass.board ≡ self.old.pass.board }
    {
        board.put(&mut self.pass, place, job);
        self.marks[place] = true;
    }

    /// Takes the job at a place, where one is put and finished.
    pub fn take(&mut self, board: &Board, place: usize) -> Option<Job>
        requires board { self.old.pass.board ≡ board.now }
        ensures same { self.new.pass.board ≡ self.old.pass.board }
        ensures finished { IfSome result (λ job. finished job ≡ true) }
    {
        if !self.is_put(place) {
            return None;
        }
        match board.take(&mut self.pass, place) {
            Taken::NotYet(_) => None,
            Taken::Stopped(job) => {
                self.marks[place] = false;
                Some(job)
            }
        }
    }

    /// A free place, where there is one.
    pub fn free_place(&self) -> Option<usize>
        ensures { IfSome result (λ place. (place < PLACES) × (is_put self.now.pass.puts place ≡ false)) }
    {
        for place in 0..PLACES {
            if !self.is_put(place) {
                return Some(place);
            }
        }
        None
    }
}
