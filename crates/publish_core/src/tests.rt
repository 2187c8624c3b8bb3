mod impossible;
mod rings;
