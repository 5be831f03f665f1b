//! The board: a word for the watermark, and one a collector for how many of its admissions are durable.
ghost use Rattle.std.specs.Prelude.{◌≡◌, ℕ, suc, ◌+◌, ◌<◌, ◌≤◌, length, [], IfOk, slice_index};
ghost use Rattle.route_meaning.specs.History.{IsHistory};
ghost use Rattle.board.specs.Past.{Past, GoesOnAs, reach};
ghost use Rattle.board.specs.Views.{View, with_seen, with_past_of, watermark_of, durable_of, IsCaughtUp, IsFrontOf, BeginsView};
ghost use Rattle.board.specs.Words.{place_of, IsWord};
ghost use Rattle.board.specs.Opened.{name_of};

use crate::opened::Opened;
use crate::steps::{Compares, Hears, MovesTo, Named, OnePast, Raises, Same, Sees, Takes, Target};
use crate::view::SeatView;
use crate::word::Word;
use atomic_table::{Seat, Table};
use std::alloc::{AllocError, Global};
use std::marker::{Model, PhantomData};

/// The words. Contracts see the number of collectors.
#[derive(Drop)]
pub struct Board<N: Named> {
    collectors: u8,
    table: Table<(), SeatView, usize, OnePast, Global>,
    of: PhantomData<N>,
}

impl<N: Named> Model for Board<N> {
    ghost use Rattle.std.specs.Prelude.{◌≡◌, ℕ, ◌+◌};

    ghost Value = { ℕ };

    ghost view = { λ b. b.collectors };

    ghost invariant = { λ b. (b.table.shared.table_id ≡ N.table) × (b.table.shared.table_id.words ≡ b.collectors + 1) × (b.table.shared.key ≡ b.collectors + 1) };
}

/// What one thread has seen: contracts see its view. It has no octets.
#[derive(Drop)]
pub struct Pass<N: Named> {
    seat: Seat<(), SeatView>,
    of: PhantomData<N>,
}

impl<N: Named> Model for Pass<N> {
    ghost use Rattle.std.specs.Prelude.{◌≡◌, false, []};
    ghost use Rattle.board.specs.Views.{View};
    ghost use Rattle.board.specs.inner.Rule.{view_of, IsThere};

    ghost Value = { View };

    ghost view = { λ p. view_of p.seat.me.0.knows };

    ghost invariant = { λ p. (p.seat.table_id ≡ N.table) × (p.seat.me.1 ≡ []) × (p.seat.me.0.writes ≡ false) × IsThere p.seat.me.0.knows.past };
}

/// The writing seat: the right to raise the words, with the one past. It has no octets, and lies beside what it speaks
/// of under a lock.
#[derive(Drop)]
pub struct Writer<N: Named> {
    seat: Seat<(), SeatView>,
    of: PhantomData<N>,
}

impl<N: Named> Model for Writer<N> {
    ghost use Rattle.std.specs.Prelude.{◌≡◌, true, []};
    ghost use Rattle.board.specs.Views.{View};
    ghost use Rattle.board.specs.inner.Rule.{view_of, IsThere};

    ghost Value = { View };

    ghost view = { λ p. view_of p.seat.me.0.knows };

    ghost invariant = { λ p. (p.seat.table_id ≡ N.table) × (p.seat.me.1 ≡ []) × (p.seat.me.0.writes ≡ true) × IsThere p.seat.me.0.knows.past };
}

impl Opened {
    /// A board for this many collectors. Its words are 0.
    pub fn new(alloc: Global, collectors: u8) -> Result<Opened, AllocError>
        ensures collectors { IfOk result (λ o. o.collectors ≡ collectors) }
    {
        let mut words = Vec::new(alloc);
        words.resize(usize::from(collectors) + 1, 0u64)?;
        let count = words.len();
        let (table, seat) = Table::of_words(alloc, words.as_slice(), &count)?;
        Ok(Opened {
            collectors,
            table,
            seat,
        })
    }

    /// If this is the board named `N`: the board, the writing seat and a first pass, which know a past that fits.
    /// What it is about is for the caller's choice of `X`. No number is seen yet.
    pub fn start<N: Named, X: Target, T>(self, _about: &T) -> (Board<N>, Writer<N>, Pass<N>)
        requires named { name_of self ≡ N.table }
        requires past { (p : Past) × IsHistory p.history × X.fits p }
        ensures board { result.0 ≡ self.collectors }
        ensures fits { X.fits result.1.past }
        ensures right { IsHistory result.1.past.history }
        ensures unseen { result.1.numbers ≡ [] }
        ensures pass { result.2 ≡ result.1 }
    {
        let Opened {
            collectors,
            table,
            mut seat,
        } = self;
        table.shared.load::<MovesTo<X>>(&mut seat, 0);
        let first = table.shared.split_seat::<Same>(&mut seat);
        (
            Board {
                collectors,
                table,
                of: PhantomData,
            },
            Writer {
                seat,
                of: PhantomData,
            },
            Pass {
                seat: first,
                of: PhantomData,
            },
        )
    }
}

impl<N: Named> Board<N> {
    /// How many collectors it is for. It has a word more.
    pub fn collectors(&self) -> u8
        ensures collectors { result ≡ self.now }
        ensures words { N.table.words ≡ result + 1 }
    {
        self.collectors
    }

    /// Raises a word to a number that the past reaches. It waits for nobody.
    pub fn raise(&self, writer: &mut Writer<N>, word: Word, to: u64)
        requires word { IsWord self.now word }
        requires reached { to ≤ reach writer.old.past.history (place_of word) }
        ensures past { writer.new.past ≡ writer.old.past }
        ensures rises { (i : ℕ) → slice_index writer.old.numbers i ≤ slice_index writer.new.numbers i }
        ensures raised { to ≤ slice_index writer.new.numbers (place_of word) }
    {
        self.table
            .shared
            .fetch_max::<Raises>(&mut writer.seat, word.place(), to);
    }

    /// The writing seat goes on to a past that its own begins. What it is about is for the caller's choice of `X`.
    pub fn advance<X: Target, T>(&self, writer: &mut Writer<N>, _about: &T)
        requires past { (p : Past) × IsHistory p.history × GoesOnAs writer.old.past p × X.fits p }
        ensures fits { X.fits writer.new.past }
        ensures right { IsHistory writer.new.past.history }
        ensures goes_on { GoesOnAs writer.old.past writer.new.past }
        ensures numbers { writer.new.numbers ≡ writer.old.numbers }
    {
        self.table.shared.load::<MovesTo<X>>(&mut writer.seat, 0);
    }

    /// The pass learns what the writing seat knows, which what it knew begins.
    pub fn meet(&self, writer: &mut Writer<N>, pass: &mut Pass<N>)
        ensures writer { writer.new ≡ writer.old }
        ensures pass { pass.new ≡ with_past_of pass.old writer.old }
        ensures begins { BeginsView pass.old pass.new }
        ensures front { IsFrontOf writer.old.past pass.old }
        ensures caught_up { IsCaughtUp writer.old → IsCaughtUp pass.new }
    {
        let shared = &self.table.shared;
        let asked = shared.split_seat::<Same>(&mut pass.seat);
        shared.join_seat::<Hears>(&mut writer.seat, asked);
        shared.load::<Compares>(&mut writer.seat, 0);
        let reported = shared.split_seat::<Same>(&mut writer.seat);
        shared.join_seat::<Takes>(&mut pass.seat, reported);
    }

    /// Another pass, which has seen the same.
    pub fn split(&self, pass: &mut Pass<N>) -> Pass<N>
        ensures same { pass.new ≡ pass.old }
        ensures other { result ≡ pass.old }
    {
        Pass {
            seat: self.table.shared.split_seat::<Same>(&mut pass.seat),
            of: PhantomData,
        }
    }

    /// The watermark, which isn't below the one that the pass has seen. It waits for nobody and takes no memory.
    pub fn watermark(&self, pass: &mut Pass<N>) -> u64
        ensures seen { pass.new ≡ with_seen pass.old 0 result }
        ensures rises { watermark_of pass.old ≤ result }
    {
        self.table.shared.load::<Sees>(&mut pass.seat, 0)
    }

    /// How many of a collector's admissions are durable: not fewer than the pass has seen. It waits for nobody and takes
    /// no memory.
    pub fn durable(&self, pass: &mut Pass<N>, collector: u8) -> u64
        requires collector { collector < self.now }
        ensures seen { pass.new ≡ with_seen pass.old (suc collector) result }
        ensures rises { durable_of pass.old collector ≤ result }
    {
        self.table
            .shared
            .load::<Sees>(&mut pass.seat, usize::from(collector) + 1)
    }
}
