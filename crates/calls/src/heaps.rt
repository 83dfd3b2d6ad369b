// The heap: functions 71 to 73, push, peek and pop. Each has the count, a face and its key, and the two lists, of at most 6,144. After the
// answer (document 01's number, 1 where there was an entry, the count, the entry's face and key) come both lists.
use crate::answers::Answer;
use crate::words::{Args, Output, ToWords};
use heap::{Entry, Popped};
use refusal::NoRoom;

fn counted(count: usize) -> Answer {
    count.into()
}

fn found(entry: Entry, count: usize) -> Answer {
    Answer {
        kind: 1,
        count,
        place: entry.face,
        float: entry.key,
        ..Answer::ZEROS
    }
}

// Document 01's number 3.
fn refused(count: usize) -> Answer {
    Answer {
        number: 3,
        count,
        ..Answer::ZEROS
    }
}

fn pushed(answer: Result<usize, NoRoom>, count: usize) -> Answer {
    match answer {
        Ok(n) => counted(n),
        Err(NoRoom) => refused(count),
    }
}

fn peeked(answer: Result<Option<Entry>, NoRoom>, count: usize) -> Answer {
    match answer {
        Ok(Some(entry)) => found(entry, count),
        Ok(None) => counted(count),
        Err(NoRoom) => refused(count),
    }
}

fn popped(answer: Result<Option<Popped>, NoRoom>, count: usize) -> Answer {
    match answer {
        Ok(Some(popped)) => found(popped.entry, popped.count),
        Ok(None) => counted(count),
        Err(NoRoom) => refused(count),
    }
}

pub fn answer(function: u32, mut args: Args, out: &mut Output) {
    let count: usize = args.read();
    let face: usize = args.read();
    let key: f32 = args.read();
    let mut faces = [0; 6_144];
    let mut keys = [0.0; 6_144];
    let faces: &mut [usize] = args.list(&mut faces);
    let keys: &mut [f32] = args.list(&mut keys);
    let answer = match function {
        71 => pushed(heap::push(faces, keys, count, face, key), count),
        72 => peeked(heap::peek(faces, keys, count), count),
        _ => popped(heap::pop(faces, keys, count), count),
    };
    answer.put(out);
    out.put_list(faces);
    out.put_list(keys);
}
