//! Which routes are asked for, by the AS numbers of their paths.

use route_model::{Route, Segment, SharedRoute};

/// Which AS numbers a path has to have.
#[derive(Clone, Copy, Debug, PartialEq, Eq)]
pub struct Numbers {
    /// The path ends in it: it is the last number of a sequence, or in a set.
    pub origin: Option<u32>,
    /// The path has it anywhere.
    pub via: Option<u32>,
}

/// Whether the number is among those of a segment.
fn is_in(segment: &Segment, number: u32) -> bool {
    match segment {
        Segment::Set(numbers) | Segment::Sequence(numbers) => numbers.as_slice().contains(&number),
    }
}

/// Whether a path ends in the number with its last segment.
fn ends_in(segment: &Segment, number: u32) -> bool {
    match segment {
        Segment::Set(_) => is_in(segment, number),
        Segment::Sequence(numbers) => numbers.as_slice().last() == Some(&number),
    }
}

impl Numbers {
    /// Whether any route is asked for, and what has none, too.
    pub(crate) fn are_any(&self) -> bool {
        self.origin.is_none() && self.via.is_none()
    }

    /// Whether the route is asked for.
    pub(crate) fn has(&self, route: &Route) -> bool {
        let segments = route.path.as_slice();
        let has_origin = match (self.origin, segments.last()) {
            (None, _) => true,
            (Some(number), Some(segment)) => ends_in(segment, number),
            (Some(_), None) => false,
        };
        let has_via = match self.via {
            None => true,
            Some(number) => segments.iter().any(|segment| is_in(segment, number)),
        };
        has_origin && has_via
    }

    /// Whether what ends or replaces a route, or begins one, is asked for.
    pub(crate) fn has_change(
        &self,
        ended: &Option<SharedRoute>,
        begun: &Option<SharedRoute>,
    ) -> bool {
        let is_route = |route: &Option<SharedRoute>| match route {
            Some(route) => self.has(route.route()),
            None => false,
        };
        self.are_any() || is_route(ended) || is_route(begun)
    }
}
