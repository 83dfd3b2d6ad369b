// What a function answers: a number (a yes or no, document 01's number, or the place of a case in its list), a kind, a count and a place,
// then a float and three vectors. What an answer has not got is zeros.
use crate::words::{Output, ToWords};
use projection::Projection;
use reduction::Location;
use refusal::WouldPanic;
use shape::Vertex;
use vector::Vec3;

#[derive(Clone, Copy)]
pub struct Answer {
    pub number: usize,
    pub kind: usize,
    pub count: usize,
    pub place: usize,
    pub float: f32,
    pub first: Vec3,
    pub second: Vec3,
    pub third: Vec3,
}

impl Answer {
    pub const ZEROS: Answer = Answer {
        number: 0,
        kind: 0,
        count: 0,
        place: 0,
        float: 0.0,
        first: Vec3::ZERO,
        second: Vec3::ZERO,
        third: Vec3::ZERO,
    };

    pub fn numbered(number: usize) -> Answer {
        Answer {
            number,
            ..Answer::ZEROS
        }
    }

    pub fn vectors(number: usize, first: Vec3, second: Vec3, third: Vec3) -> Answer {
        Answer {
            number,
            first,
            second,
            third,
            ..Answer::ZEROS
        }
    }
}

impl ToWords for Answer {
    fn put(&self, out: &mut Output) {
        out.put_list(&[self.number, self.kind, self.count, self.place]);
        self.float.put(out);
        out.put_list(&[self.first, self.second, self.third]);
    }
}

// ---- a yes or no, a count, a float, a vector, a vertex

impl From<bool> for Answer {
    fn from(is: bool) -> Answer {
        Answer::numbered(usize::from(is))
    }
}

impl From<usize> for Answer {
    fn from(count: usize) -> Answer {
        Answer {
            count,
            ..Answer::ZEROS
        }
    }
}

impl From<f32> for Answer {
    fn from(float: f32) -> Answer {
        Answer {
            float,
            ..Answer::ZEROS
        }
    }
}

impl From<Vec3> for Answer {
    fn from(first: Vec3) -> Answer {
        Answer {
            first,
            ..Answer::ZEROS
        }
    }
}

impl From<Vertex> for Answer {
    fn from(v: Vertex) -> Answer {
        Answer::vectors(0, v.point, v.orig1, v.orig2)
    }
}

// ---- nothing done, with number 0, and refusal 2

impl From<()> for Answer {
    fn from(_: ()) -> Answer {
        Answer::ZEROS
    }
}

pub fn or_refused<T: Into<Answer>>(answer: Result<T, WouldPanic>) -> Answer {
    match answer {
        Ok(x) => x.into(),
        Err(WouldPanic) => Answer::numbered(2),
    }
}

// ---- a projection's point; its location's kind (0 vertex, 1 edge, 2 face, 3 solid), number and weights

impl<L: Into<Location>> From<Projection<L>> for Answer {
    fn from(projection: Projection<L>) -> Answer {
        let Projection { point, location } = projection;
        let (kind, place, weights) = match location.into() {
            Location::OnVertex(i) => (0, i, Vec3::ZERO),
            Location::OnEdge(i, u, v) => (1, i, Vec3::new(u, v, 0.0)),
            Location::OnFace(i, u, v, w) => (2, i, Vec3::new(u, v, w)),
            Location::OnSolid => (3, 0, Vec3::ZERO),
        };
        Answer {
            kind,
            place: place as usize,
            first: point,
            second: weights,
            ..Answer::ZEROS
        }
    }
}
