// Examples of a stack at its edges. They stand apart, since a crate with tests is proved twice.
#![tactic(auto)]

#[cfg(test)]
mod tests {
    use stack::Stack;

    #[test]
    fn no_room(rt: HostRuntime) {
        let mut cells: [u32; 0] = [];
        let mut stack = Stack::over(&mut cells);
        assert_eq!(rt; stack.capacity(), 0);
        assert_eq!(rt; stack.len(), 0);
        assert_eq!(rt; stack.top(), None);
        assert_eq!(rt; stack.push(1).is_ok(), false);
        assert_eq!(rt; stack.pop(), None);
        assert_eq!(rt; stack.len(), 0);
    }

    #[test]
    fn numbers_to_full_and_one_more(rt: HostRuntime) {
        let mut cells = [7u32; 3];
        let mut stack = Stack::over(&mut cells);
        assert_eq!(rt; stack.capacity(), 3);
        assert_eq!(rt; stack.top(), None);
        assert_eq!(rt; stack.push(1).is_ok(), true);
        assert_eq!(rt; stack.push(2).is_ok(), true);
        assert_eq!(rt; stack.push(3).is_ok(), true);
        assert_eq!(rt; stack.push(4).is_ok(), false);
        assert_eq!(rt; stack.len(), 3);
        assert_eq!(rt; stack.capacity(), 3);
        assert_eq!(rt; stack.top(), Some(3));
    }

    #[test]
    fn numbers_to_empty_and_one_more(rt: HostRuntime) {
        let mut cells = [7u32; 2];
        let mut stack = Stack::over(&mut cells);
        assert_eq!(rt; stack.push(1).is_ok(), true);
        assert_eq!(rt; stack.push(2).is_ok(), true);
        assert_eq!(rt; stack.pop(), Some(2));
        assert_eq!(rt; stack.top(), Some(1));
        assert_eq!(rt; stack.pop(), Some(1));
        assert_eq!(rt; stack.pop(), None);
        assert_eq!(rt; stack.len(), 0);
        assert_eq!(rt; stack.push(3).is_ok(), true);
        assert_eq!(rt; stack.pop(), Some(3));
    }

    #[test]
    fn flags(rt: HostRuntime) {
        let mut cells = [true; 2];
        let mut stack = Stack::over(&mut cells);
        assert_eq!(rt; stack.push(false).is_ok(), true);
        assert_eq!(rt; stack.push(true).is_ok(), true);
        assert_eq!(rt; stack.push(false).is_ok(), false);
        assert_eq!(rt; stack.top(), Some(true));
        assert_eq!(rt; stack.pop(), Some(true));
        assert_eq!(rt; stack.pop(), Some(false));
        assert_eq!(rt; stack.pop(), None);
    }
}
