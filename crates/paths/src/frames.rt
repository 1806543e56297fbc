// The frames of a walk down a code's path, as places of work space hold them.
ghost use Rattle.std.specs.Prelude.{◌≡◌};
ghost use Rattle.paths.specs.Framed.{frame_in};

use memory::work::Place;

// What waits for the number of a changed list.
#[derive(Clone, Copy)]
pub enum Frame {
    // This vertex, with another zero link.
    Zero { vertex: u32 },
    // A vertex with the code's symbol at `spot`, and this zero link: the one link is still to come.
    One { zero: u32, spot: usize },
}

impl From<Frame> for Place {
    ghost from_gives = { λ frame place. frame_in place ≡ frame };

    fn from(frame: Frame) -> Place {
        // Which frame it is stands as a plain number, as all that a place keeps.
        match frame {
            Frame::Zero { vertex } => Place {
                list: vertex,
                ..Place::default()
            },
            Frame::One { zero, spot } => Place {
                state: 1,
                list: zero,
                count: spot as u64,
                ..Place::default()
            },
        }
    }
}

impl From<Place> for Frame {
    ghost from_gives = { λ place frame. frame ≡ frame_in place };

    fn from(place: Place) -> Frame {
        if place.state == 0 {
            Frame::Zero { vertex: place.list }
        } else {
            Frame::One {
                zero: place.list,
                spot: place.count as usize,
            }
        }
    }
}
