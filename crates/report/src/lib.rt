// The foreman's report, a value: per route the PDUs handed out, their bytes, the smallest and the largest length; per connection the drops of
// each reason. Sums have 64 bits, and none ever passes them. Every function is total: no caller is relied on.
#![tactic(auto)]

ghost use Rattle.std.specs.Prelude.{◌≡◌, Bool, true, false, length};
ghost use Rattle.std.specs.List.{list_all, zip};
ghost use Rattle.report.specs.Pairwise.{pairwise};
ghost use Rattle.report.specs.Figures as Fi;
ghost use Rattle.report.specs.Laws as Laws;
ghost use Rattle.report.specs.Report as Re;

// What one route handed out: how many PDUs, their bytes, the smallest and the largest length, 0 and 0 where there was none.
#[derive(Clone, Copy, Debug, PartialEq, Eq)]
pub struct RouteFigures {
    pub pdus: u64,
    pub bytes: u64,
    pub smallest: u32,
    pub largest: u32,
}

// What one connection dropped, by reason: 20 no route, 21 switched off, 22 too long, 23 cut off; 24 is room for one more.
#[derive(Clone, Copy, Debug, PartialEq, Eq)]
pub struct Drops {
    pub unrouted: u64,
    pub off: u64,
    pub long: u64,
    pub cut: u64,
    pub short: u64,
}

// The figures of each route and of each connection, by number.
#[derive(Clone, Copy, Debug, PartialEq, Eq)]
pub struct Report {
    pub routes: [RouteFigures; 64],
    pub connections: [Drops; 16],
}

// Figures that add up, of whatever they are.
pub trait Figures: Copy {
    ghost nothing: { Self };

    ghost fit: { Self → Self → Bool };

    ghost add: { Self → Self → Self };

    ghost sum: { Self → Self → Self };

    // The figures of nothing.
    fn none() -> Self
        ensures { result ≡ nothing };

    // No sum of the two passes 64 bits.
    fn fits(self, more: Self) -> bool
        ensures { result ≡ fit self more };

    // These figures and more of the same; these alone where a sum would pass 64 bits.
    fn plus(self, more: Self) -> Self
        ensures { result ≡ sum self more };

    ghost made: { (f g : Self) → fit f g ≡ true → sum f g ≡ add f g };

    ghost refused: { (f g : Self) → fit f g ≡ false → sum f g ≡ f };
}

fn sum_fits(a: u64, b: u64) -> bool
    ensures { result ≡ Fi.sum_fits a b }
{
    a.checked_add(b).is_some()
}

// The smaller of two smallest lengths; where one side has no PDU, the other's.
#[tactic(auto, unfolding(crate::specs::Figures::smallest_by))]
fn smallest_of(none: bool, nor: bool, a: u32, b: u32) -> u32
    ensures { result ≡ Fi.smallest_by none nor a b }
{
    match (none, nor) {
        (true, true) => a.max(b),
        (true, false) => b,
        (false, true) => a,
        (false, false) => a.min(b),
    }
}

// The figures of one PDU.
pub fn one_pdu(length: u32) -> RouteFigures
    ensures { result ≡ Fi.one_pdu length }
{
    RouteFigures {
        pdus: 1,
        bytes: length as u64,
        smallest: length,
        largest: length,
    }
}

// One drop of a reason; another number is none.
#[tactic(auto, unfolding(crate::specs::Figures::one_drop))]
pub fn one_drop(reason: u8) -> Drops
    ensures { result ≡ Fi.one_drop reason }
{
    let none = Drops::none();
    match reason {
        20 => Drops {
            unrouted: 1,
            ..none
        },
        21 => Drops { off: 1, ..none },
        22 => Drops { long: 1, ..none },
        23 => Drops { cut: 1, ..none },
        24 => Drops { short: 1, ..none },
        _ => none,
    }
}

impl Figures for RouteFigures {
    ghost nothing = { Fi.no_pdus };

    ghost fit = { Fi.figures_fit };

    ghost add = { Fi.add_figures };

    ghost sum = { Fi.plus_figures };

    ghost made = { Laws.figures_made };

    ghost refused = { Laws.figures_refused };

    // No PDU.
    fn none() -> RouteFigures {
        RouteFigures {
            pdus: 0,
            bytes: 0,
            smallest: 0,
            largest: 0,
        }
    }

    #[tactic(auto, unfolding(crate::specs::Figures::figures_fit))]
    fn fits(self, more: RouteFigures) -> bool {
        sum_fits(self.pdus, more.pdus) & sum_fits(self.bytes, more.bytes)
    }

    #[tactic(auto, using(crate::proofs::Turns::figures_small), unfolding(crate::specs::Figures::plus_figures, crate::specs::Figures::add_figures))]
    fn plus(self, more: RouteFigures) -> RouteFigures {
        if !self.fits(more) {
            return self;
        }
        RouteFigures {
            pdus: self.pdus + more.pdus,
            bytes: self.bytes + more.bytes,
            smallest: smallest_of(self.pdus == 0, more.pdus == 0, self.smallest, more.smallest),
            largest: self.largest.max(more.largest),
        }
    }
}

impl Figures for Drops {
    ghost nothing = { Fi.no_drops };

    ghost fit = { Fi.drops_fit };

    ghost add = { Fi.add_drops };

    ghost sum = { Fi.plus_drops };

    ghost made = { Laws.drops_made };

    ghost refused = { Laws.drops_refused };

    // No drop.
    fn none() -> Drops {
        Drops {
            unrouted: 0,
            off: 0,
            long: 0,
            cut: 0,
            short: 0,
        }
    }

    #[tactic(auto, unfolding(crate::specs::Figures::drops_fit))]
    fn fits(self, more: Drops) -> bool {
        sum_fits(self.unrouted, more.unrouted)
            & sum_fits(self.off, more.off)
            & sum_fits(self.long, more.long)
            & sum_fits(self.cut, more.cut)
            & sum_fits(self.short, more.short)
    }

    #[tactic(auto, using(crate::proofs::Turns::drops_small), unfolding(crate::specs::Figures::plus_drops, crate::specs::Figures::add_drops))]
    fn plus(self, more: Drops) -> Drops {
        if !self.fits(more) {
            return self;
        }
        Drops {
            unrouted: self.unrouted + more.unrouted,
            off: self.off + more.off,
            long: self.long + more.long,
            cut: self.cut + more.cut,
            short: self.short + more.short,
        }
    }
}

// The report of no run.
pub fn empty() -> Report
    ensures { result ≡ Re.empty_report }
{
    Report {
        routes: [RouteFigures::none(); 64],
        connections: [Drops::none(); 16],
    }
}

// No sum of figures and those at the same place passes 64 bits.
fn all_fit<F: Figures>(these: &[F], more: &[F]) -> bool
    ensures { result ≡ list_all (λ p. F.fit p.0 p.1) (zip these.now more.now) }
{
    these.iter().zip(more).all(|(f, g)| f.fits(*g))
}

// To each of these the figures at the same place, where no sum passes 64 bits.
fn add_all<F: Figures>(these: &mut [F], more: &[F])
    requires { length these.old ≡ length more.now }
    ensures { these.new ≡ pairwise F.sum these.old more.now }
{
    for (i, figures) in these.iter_mut().enumerate() {
        *figures = figures.plus(more[i]);
    }
}

// No sum of the two passes 64 bits.
fn fit(first: &Report, second: &Report) -> bool
    ensures { result ≡ Re.reports_fit first.now second.now }
{
    all_fit(&first.routes, &second.routes) & all_fit(&first.connections, &second.connections)
}

// Two reports joined; where a sum would pass 64 bits, nothing is added, and the first is handed back.
#[tactic(auto, using(crate::proofs::Turns::sums_made), unfolding(crate::specs::Report::join_reports))]
pub fn join(first: Report, second: Report) -> Result<Report, Report>
    ensures { result ≡ Re.join_reports first second }
{
    if !fit(&first, &second) {
        return Err(first);
    }
    let mut sums = first;
    add_all(&mut sums.routes, &second.routes);
    add_all(&mut sums.connections, &second.connections);
    Ok(sums)
}
