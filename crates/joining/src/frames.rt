// A frame: a pair that is being joined, kept in a place of work space. The place's `list` and `other` are the pair. Its
// `state` is 0 while the outer lists are being joined; after that `number` is their number.
ghost use Rattle.std.specs.Prelude.{◌≡◌};
ghost use Rattle.joining.specs.Frames.{frame_of};

use crate::pairs::Pair;
use memory::work::Place;

#[derive(Clone, Copy)]
pub struct Frame {
    pub pair: Pair,
    // the number of the outer lists' join, once there is one
    pub outer: Option<u32>,
}

impl From<Place> for Frame {
    ghost from_gives = { λ place frame. frame ≡ frame_of place };

    fn from(place: Place) -> Frame {
        Frame {
            pair: Pair {
                first: place.list,
                second: place.other,
            },
            outer: (place.state != 0).then_some(place.number),
        }
    }
}

// Which stage it is at stands as a plain number, as all that a place keeps.
impl From<Frame> for Place {
    ghost from_gives = { λ frame place. frame_of place ≡ frame };

    fn from(frame: Frame) -> Place {
        let Pair { first, second } = frame.pair;
        Place {
            state: u32::from(frame.outer.is_some()),
            list: first,
            other: second,
            number: frame.outer.unwrap_or(0),
            ..Place::default()
        }
    }
}
