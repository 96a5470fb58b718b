// What may go from thread to thread.

use crate::answer::FrameAnswer;
use crate::frame::Frame;
use crate::script::FrameScript;
use crate::section::FrameSection;

fn sent_to_threads<T: Send>(_it: &T) {}

// A script and a frame, wherever it is, may go to another thread. Nothing calls this: that it is accepted shows it.
fn crosses(script: &FrameScript, frame: &Frame, section: &FrameSection, answer: &FrameAnswer) {
    sent_to_threads(script);
    sent_to_threads(frame);
    sent_to_threads(section);
    sent_to_threads(answer);
}
