use tungstenite::WebSocketConfig;

/// How many bytes one read of a socket asks for. A link that has read keeps about twice as many, and as many as its longest message had.
pub const READ_SIZE: usize = 2048;

/// The most bytes of one message, and of one frame: twice what a command may have. A longer one is a fault of its link, and is not kept.
pub const MESSAGE_LIMIT: usize = 131_072;

/// The most bytes that wait in a link for its peer to take them. A text that would go beyond is a fault of the link.
pub const OUTPUT_LIMIT: usize = 1 << 24;

/// The sizes of a server's sockets.
pub fn socket_config() -> WebSocketConfig {
    WebSocketConfig::default()
        .read_buffer_size(READ_SIZE)
        .max_write_buffer_size(OUTPUT_LIMIT)
        .max_message_size(Some(MESSAGE_LIMIT))
        .max_frame_size(Some(MESSAGE_LIMIT))
}
